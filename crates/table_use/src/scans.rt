//! How a hand takes a scan to its end, inside other scans.
ghost use Rattle.std.specs.Prelude.{◌≡◌, IfSome, IfNone};
ghost use Rattle.table_steps.specs.Views.{IsHandOf};
ghost use Rattle.table_steps.specs.ScanSeals.{CanSealScan};
ghost use Rattle.stop_calls.specs.Walks.{IsThrough};
ghost use Rattle.table_use.specs.Uses.{KeepsReports, KeepsHoldings};
ghost use Rattle.table_use.specs.Causes.{GoesOn};
ghost use Rattle.table_use.specs.Scans.{Scans, Hears, IsFewer, KeepsOthers, other_scans};
ghost use Rattle.table_use.specs.Counts.{RunsOne, RunsOut};

use crate::node::{Table, Worker};
use life_rules::Name;
use stop_calls::Scan;

/// Runs the next callback of the scan, whose source says all that it does. The answer is its place,
/// none where no place is left.
pub fn runs_one(table: &Table, hand: &mut Worker, scan: &mut Scan) -> Option<Name>
    requires table { IsHandOf table.now hand.old }
    requires scans { Scans table.now scan.old hand.old.me }
    ensures table { IsHandOf table.now hand.new }
    ensures scans { Scans table.now scan.new hand.new.me }
    ensures source { scan.new.source ≡ scan.old.source }
    ensures place { IfSome result (λ x. Hears table.now.frame.tree scan.new.source x) }
    ensures fewer { IfSome result (λ _. IsFewer table.now scan.old scan.new) }
    ensures none { IfNone result (CanSealScan table.now.frame hand.new.me.0 scan.new.source) }
    ensures through { IfNone result (IsThrough table.now scan.old hand.old hand.new scan.new) }
    ensures runs { hand.new.me.0.runs ≡ hand.old.me.0.runs }
    ensures others { KeepsOthers scan.new.source hand.old.me hand.new.me }
    ensures ran { IfSome result (λ x. RunsOne table.now scan.old scan.new x hand.old hand.new) }
    ensures reports { KeepsReports hand.old.me hand.new.me }
    ensures holds { KeepsHoldings hand.old.me hand.new.me }
    ensures steps { GoesOn hand.old.me hand.new.me }
{
    match scan.next(table, hand) {
        Some(due) => {
            let place = due.place();
            due.finish(table, hand);
            Some(place)
        }
        None => None,
    }
}

/// Runs all callbacks that are left of the scan, and seals it. The answer is how many ran.
pub fn runs_out(table: &Table, hand: &mut Worker, mut scan: Scan) -> u32
    requires table { IsHandOf table.now hand.old }
    requires scans { Scans table.now scan hand.old.me }
    ensures table { IsHandOf table.now hand.new }
    ensures runs { hand.new.me.0.runs ≡ hand.old.me.0.runs }
    ensures scans { hand.new.me.0.scans ≡ other_scans scan.source hand.old.me }
    ensures reports { KeepsReports hand.old.me hand.new.me }
    ensures holds { KeepsHoldings hand.old.me hand.new.me }
    ensures steps { GoesOn hand.old.me hand.new.me }
    ensures ran { RunsOut table.now result scan hand.old hand.new }
{
    // The table has few places, so a count of them fits.
    let _blocks = table.blocks();
    let _nodes = table.tree().size();
    let mut count = 0u32;
    while let Some(_place) = runs_one(table, hand, &mut scan) {
        count += 1;
    }
    scan.seal(table, hand);
    count
}
