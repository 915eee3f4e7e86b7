//! A root that hears the scope's source: its callback is registered, and removed after a scan, from
//! inside it, or beside it. Each call hands on what the calls that it makes read, left and
//! answered.
ghost use Rattle.std.specs.Prelude.{◌≡◌, true, IfOk, IfErr, IfSome, IfNone};
ghost use Rattle.life_rules.specs.declared.event.SourceRef.TheVariants.{Scope};
ghost use Rattle.life_rules.specs.declared.words.CallbackPhase.TheVariants.{Armed as IsArmed};
ghost use Rattle.life_rules.specs.StopSteps.{is_counting};
ghost use Rattle.table_steps.specs.Views.{IsHandOf, knows};
ghost use Rattle.table_steps.specs.Callbacks.{is_registered};
ghost use Rattle.op_slot.specs.Tends.{IsCalm};
ghost use Rattle.stop_calls.specs.Removals.{IsTried, IsSettled};
ghost use Rattle.stop_calls.specs.Requests.{IsRequested};
ghost use Rattle.table_use.specs.Uses.{use_tree, IsRoot, HoldsGoing, KeepsPlays, KeepsHoldings, IsIdle};
ghost use Rattle.table_use.specs.Causes.{WasRegistered};
ghost use Rattle.table_use.specs.Hearing.{HoldsRoot, AsksScope, tried_as, settled_as};
ghost use Rattle.table_use.specs.Asking.{request_of, Listens, AsksAll, RemovesNext, RemovesInside, LetsGo};

use crate::cargo::Item;
use crate::node::{Fault, Table, Worker, is_registered};
use crate::scans::runs_out;
use life_rules::{CallbackPhase, Name, SourceRef};
use op_slot::{Cargo, take_home};
use std::sync::Wait;
use stop_calls::{
    Armed, Request, Scan, Settled, Withdrawn, arm, request_stop, try_withdraw, withdraw,
};

/// Registers the root's callback. Asked where a stop was requested of the scope before.
pub fn listens(table: &Table, hand: &mut Worker, root: Name) -> Result<Armed, Fault>
    requires table { IsHandOf table.now hand.old }
    requires root { IsRoot table.now root }
    requires holds { HoldsGoing table.now.frame root hand.old.me }
    ensures table { IsHandOf table.now hand.new }
    ensures plays { KeepsPlays hand.old.me hand.new.me }
    ensures number { (knows hand.new).number ≡ (knows hand.old).number }
    ensures holds { IfOk result (λ _. HoldsRoot table.now.frame root IsArmed hand.new.me) }
    ensures heard { IfOk result (λ armed. Listens table.now root armed hand.old hand.new) }
    ensures fault { IfErr result (λ _. WasRegistered table.now hand.old.me hand.new.me root) }
{
    if is_registered(table.phase_of(hand, root)) {
        return Err(Fault::Registered);
    }
    Ok(arm(table, hand, root))
}

/// Requests a stop of the scope, by hand 0. None where one was requested before.
pub fn asks(table: &Table, hand: &mut Worker) -> Option<Scan>
    requires table { IsHandOf table.now hand.old }
    requires tree { table.now.frame.tree ≡ use_tree }
    requires kind { is_counting table.now.frame.kind ≡ true }
    requires number { (knows hand.old).number ≡ 0 }
    requires idle { IsIdle hand.old.me }
    ensures table { IsHandOf table.now hand.new }
    ensures holds { KeepsHoldings hand.old.me hand.new.me }
    ensures requested { IsRequested table.now Scope (request_of result) hand.old hand.new }
    ensures made { IfSome result (λ scan. AsksScope table.now scan hand.new.me) }
    ensures none { IfNone result (IsIdle hand.new.me) }
{
    match request_stop(table, hand, SourceRef::Scope) {
        Request::Made(scan) => Some(scan),
        Request::Already => None,
    }
}

/// The same, and runs all callbacks that the scan comes to. The answer is how many ran.
pub fn asks_all(table: &Table, hand: &mut Worker) -> Option<u32>
    requires table { IsHandOf table.now hand.old }
    requires tree { table.now.frame.tree ≡ use_tree }
    requires kind { is_counting table.now.frame.kind ≡ true }
    requires number { (knows hand.old).number ≡ 0 }
    requires idle { IsIdle hand.old.me }
    ensures table { IsHandOf table.now hand.new }
    ensures holds { KeepsHoldings hand.old.me hand.new.me }
    ensures idle { IsIdle hand.new.me }
    ensures asked { AsksAll table.now result hand.old hand.new }
{
    let scan = asks(table, hand)?;
    Some(runs_out(table, hand, scan))
}

// Goes to the next callback of the scan, and removes that of the root from inside it.
fn removes_next(table: &Table, hand: &mut Worker, root: Name, scan: &mut Scan) -> Option<Withdrawn>
    requires table { IsHandOf table.now hand.old }
    requires root { IsRoot table.now root }
    requires scan { AsksScope table.now scan.old hand.old.me }
    requires holds { HoldsRoot table.now.frame root IsArmed hand.old.me }
    ensures table { IsHandOf table.now hand.new }
    ensures scan { AsksScope table.now scan.new hand.new.me }
    ensures removed { RemovesNext table.now root scan.old scan.new result hand.old hand.new }
{
    let due = scan.next(table, hand)?;
    let inside = try_withdraw(table, hand, root);
    due.finish(table, hand);
    Some(inside)
}

/// Requests a stop of the scope, removes the root's callback from inside the first that runs, and
/// runs what is left. The answer is what the removal found, and how many ran after it.
pub fn removes_inside(table: &Table, hand: &mut Worker, root: Name) -> Option<(Withdrawn, u32)>
    requires table { IsHandOf table.now hand.old }
    requires root { IsRoot table.now root }
    requires kind { is_counting table.now.frame.kind ≡ true }
    requires number { (knows hand.old).number ≡ 0 }
    requires idle { IsIdle hand.old.me }
    requires holds { HoldsRoot table.now.frame root IsArmed hand.old.me }
    ensures table { IsHandOf table.now hand.new }
    ensures idle { IsIdle hand.new.me }
    ensures removed { RemovesInside table.now root result hand.old hand.new }
{
    let mut scan = asks(table, hand)?;
    let found = removes_next(table, hand, root, &mut scan);
    let left = runs_out(table, hand, scan);
    Some((found?, left))
}

/// Tries to remove the root's callback beside a scan of another hand.
pub fn tries(table: &Table, hand: &mut Worker, root: Name) -> Withdrawn
    requires table { IsHandOf table.now hand.old }
    requires root { IsRoot table.now root }
    requires idle { IsIdle hand.old.me }
    requires holds { HoldsRoot table.now.frame root IsArmed hand.old.me }
    ensures table { IsHandOf table.now hand.new }
    ensures idle { IsIdle hand.new.me }
    ensures holds { HoldsRoot table.now.frame root (tried_as result) hand.new.me }
    ensures tried { IsTried table.now root hand.old hand.new result }
{
    try_withdraw(table, hand, root)
}

/// Removes the root's callback, which was read as armed or as running. While another hand runs it,
/// this waits for the end of that run.
pub fn removes<R: Wait>(
    rt: &R,
    table: &Table,
    hand: &mut Worker,
    root: Name,
    read: CallbackPhase,
) -> Settled
    requires table { IsHandOf table.now hand.old }
    requires root { IsRoot table.now root }
    requires idle { IsIdle hand.old.me }
    requires read { is_registered read ≡ true }
    requires holds { HoldsRoot table.now.frame root read hand.old.me }
    ensures table { IsHandOf table.now hand.new }
    ensures idle { IsIdle hand.new.me }
    ensures holds { HoldsRoot table.now.frame root (settled_as result) hand.new.me }
    ensures settled { IsSettled table.now root hand.old hand.new result }
{
    withdraw(rt, table, hand, root)
}

/// Finishes the root, whose callback was removed.
pub fn lets_go(table: &Table, hand: &mut Worker, root: Name, settled: Settled)
    requires table { IsHandOf table.now hand.old }
    requires root { IsRoot table.now root }
    requires calm { IsCalm hand.old.me }
    requires holds { HoldsRoot table.now.frame root (settled_as settled) hand.old.me }
    ensures table { IsHandOf table.now hand.new }
    ensures finished { LetsGo table.now root hand.old hand.new ⟦<Item as Cargo>⟧ }
{
    let _start = take_home(table, hand, root);
    table.finish(hand, root);
}
