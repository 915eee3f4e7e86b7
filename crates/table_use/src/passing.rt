//! What the callback of the branch does: it passes the request on.
ghost use Rattle.std.specs.Prelude.{◌≡◌, [], IfOk, IfErr};
ghost use Rattle.life_rules.specs.Views.{beside};
ghost use Rattle.table_steps.specs.Views.{IsHandOf};
ghost use Rattle.table_use.specs.Uses.{IsNode, IsRoot, IsIdle, IsStill, KeepsReports};
ghost use Rattle.table_use.specs.Scans.{Scans, IsInside, IsOuter};
ghost use Rattle.table_use.specs.Causes.{GoesOn, IsCauseAt, IsScanCause};

use crate::node::{Fault, Table, Worker};
use crate::scans::{runs_one, runs_out};
use life_rules::{Name, SourceRef};
use stop_calls::{Request, Scan, request_stop};

// What a callback that hears the root does. That of the branch requests a stop on the branch's
// source, and runs what hears it. The answer is the first place that ran then, which is the twig's.
fn forwards(table: &Table, hand: &mut Worker, place: Name) -> Result<Name, Fault>
    requires table { IsHandOf table.now hand.old }
    requires node { IsNode table.now place }
    requires inside { IsInside place hand.old.me }
    ensures table { IsHandOf table.now hand.new }
    ensures branch { IfOk result (λ _. place.node ≡ 2) }
    ensures twig { IfOk result (λ x. x ≡ beside place 1) }
    ensures still { IsStill hand.old.me hand.new.me }
    ensures steps { GoesOn hand.old.me hand.new.me }
    ensures fault { IfErr result (IsCauseAt table.now hand.old.me hand.new.me place) }
{
    if place.node != 2 {
        return Err(Fault::OtherPlace);
    }
    match request_stop(table, hand, SourceRef::Node(place)) {
        Request::Already => Err(Fault::Asked),
        Request::Made(mut scan) => {
            let first = runs_one(table, hand, &mut scan);
            runs_out(table, hand, scan);
            match first {
                Some(twig) => Ok(twig),
                None => Err(Fault::Moved),
            }
        }
    }
}

// Runs the next callback of the scan of the root's source. It passes the request on where it is the
// branch's. The answer is the place, and that of the twig.
fn passes(
    table: &Table,
    hand: &mut Worker,
    root: Name,
    scan: &mut Scan,
) -> Result<(Name, Name), Fault>
    requires table { IsHandOf table.now hand.old }
    requires root { IsRoot table.now root }
    requires scans { IsOuter table.now root scan.old hand.old.me }
    ensures table { IsHandOf table.now hand.new }
    ensures scans { IsOuter table.now root scan.new hand.new.me }
    ensures branch { IfOk result (λ r. r.0 ≡ beside root 2) }
    ensures twig { IfOk result (λ r. r.1 ≡ beside root 1) }
    ensures reports { KeepsReports hand.old.me hand.new.me }
    ensures steps { GoesOn hand.old.me hand.new.me }
    ensures fault { IfErr result (IsScanCause table.now root scan.old hand.old hand.new) }
{
    match scan.next(table, hand) {
        Some(due) => {
            let place = due.place();
            let twig = forwards(table, hand, place);
            due.finish(table, hand);
            Ok((place, twig?))
        }
        None => Err(Fault::Moved),
    }
}

/// Takes the scan of the root's source to its end. The answer is the places that ran, which are the
/// branch's and, from inside that, the twig's.
pub(crate) fn scans(
    table: &Table,
    hand: &mut Worker,
    root: Name,
    mut scan: Scan,
) -> Result<(Name, Name), Fault>
    requires table { IsHandOf table.now hand.old }
    requires root { IsRoot table.now root }
    requires scans { IsOuter table.now root scan hand.old.me }
    ensures table { IsHandOf table.now hand.new }
    ensures idle { IsIdle hand.new.me }
    ensures branch { IfOk result (λ r. r.0 ≡ beside root 2) }
    ensures twig { IfOk result (λ r. r.1 ≡ beside root 1) }
    ensures reports { KeepsReports hand.old.me hand.new.me }
    ensures steps { GoesOn hand.old.me hand.new.me }
    ensures fault { IfErr result (IsScanCause table.now root scan hand.old hand.new) }
{
    let ran = passes(table, hand, root, &mut scan);
    runs_out(table, hand, scan);
    ran
}
