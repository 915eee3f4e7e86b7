//! Two hands of one table, each in a thread of its own: one registers and removes a callback, the
//! other requests a stop and runs what it comes to.
ghost use Rattle.std.specs.Prelude.{IfOk};
ghost use Rattle.std.specs.Thread.{IsSync};
ghost use Rattle.life_rules.specs.declared.words.CallbackPhase.TheVariants.{Armed as IsArmed, Running as Runs};
ghost use Rattle.table_steps.specs.Views.{IsHandOf};
ghost use Rattle.table_use.specs.Uses.{IsRoot, IsIdle};
ghost use Rattle.table_use.specs.Hearing.{HoldsRoot};
ghost use Rattle.table_tests.specs.Ready.{IsUse, IsReady};

use super::Wrong;
use super::opening::{armed, shared};
use life_rules::{CallbackPhase, Name};
use std::alloc::Global;
use std::sync::Wait;
use std::sync::atomic::{AtomicU64, Ordering};
use std::test::Fail;
use std::thread::{Threads, join, yield_now};
use stop_calls::{Settled, Withdrawn};
use table_use::{Table, Worker, asks, asks_all, lets_go, removes, runs_out, tries};

// So often a thread looks how far the other came before it gives up.
const ATTEMPTS: u32 = 10_000_000;

// How far the two came.
const ARMED: u64 = 1;

const RUNNING: u64 = 2;

const TRIED: u64 = 3;

const ENDING: u64 = 4;

// Requests a stop, and runs what it comes to.
fn requests(table: &Table, mut hand: Worker) -> u32
    requires over { IsUse table.now 1 }
    requires ready { IsReady table.now 0 hand }
{
    asks_all(table, &mut hand).unwrap_or(0)
}

// Registers a callback and removes it, and ends the operation.
fn holds<R: Wait>(rt: &R, table: &Table, hand: &mut Worker) -> Result<Settled, Wrong>
    requires over { IsUse table.now 1 }
    requires ready { IsReady table.now 1 hand.old }
{
    let (root, _told) = armed(table, hand)?;
    let settled = removes(rt, table, hand, root, CallbackPhase::Armed);
    lets_go(table, hand, root, settled);
    Ok(settled)
}

// The same, after which the hand is left.
fn holds_once<R: Wait>(rt: &R, table: &Table, mut hand: Worker) -> Result<Settled, Wrong>
    requires over { IsUse table.now 1 }
    requires ready { IsReady table.now 1 hand }
{
    let settled = holds(rt, table, &mut hand);
    drop(hand);
    settled
}

// Both at once on a table of their own. Whether the callback ran once where the removal found that
// it ran, and else not.
pub(super) fn counts_each_run<R: Threads + Wait + Sync>(
    rt: &R,
    alloc: Global,
) -> Result<bool, Fail> {
    let (table, first, second) = shared(alloc, 1)?;
    let (runs, settled) = beside(rt, &table, first, second);
    drop(table);
    Ok(match settled? {
        Settled::Ran => runs == 1,
        _ => runs == 0,
    })
}

fn beside<R: Threads + Wait + Sync>(
    rt: &R,
    table: &Table,
    first: Worker,
    second: Worker,
) -> (u32, Result<Settled, Wrong>)
    requires over { IsUse table.now 1 }
    requires first { IsReady table.now 0 first }
    requires second { IsReady table.now 1 second }
{
    join(
        rt,
        move || -> u32
            requires { IsUse table.now 1 × IsReady table.now 0 first }
        { requests(table, first) },
        move || -> Result<Settled, Wrong>
            requires { IsSync R.row × IsUse table.now 1 × IsReady table.now 1 second }
        { holds_once(rt, table, second) },
    )
}

// Waits until the other thread came so far.
fn comes(stage: &AtomicU64, far: u64) -> bool {
    for _attempt in 0..ATTEMPTS {
        if stage.load(Ordering::SeqCst) >= far {
            return true;
        }
        yield_now();
    }
    false
}

// Requests a stop once the callback is registered, and ends its run after the other hand tried to
// remove it.
fn runs_slowly(table: &Table, hand: &mut Worker, stage: &AtomicU64)
    requires over { IsUse table.now 1 }
    requires ready { IsReady table.now 0 hand.old }
{
    comes(stage, ARMED);
    if let Some(mut scan) = asks(table, hand) {
        if let Some(due) = scan.next(table, hand) {
            stage.store(RUNNING, Ordering::SeqCst);
            comes(stage, TRIED);
            stage.store(ENDING, Ordering::SeqCst);
            due.finish(table, hand);
            runs_out(table, hand, scan);
        } else {
            scan.seal(table, hand);
        }
    }
}

// The same, after which the hand is left.
fn runs_once(table: &Table, mut hand: Worker, stage: &AtomicU64)
    requires over { IsUse table.now 1 }
    requires ready { IsReady table.now 0 hand }
{
    runs_slowly(table, &mut hand, stage);
    drop(hand);
}

// Tries to remove the callback while another hand runs it.
fn finds_run(table: &Table, hand: &mut Worker, root: Name) -> Result<(), Wrong>
    requires table { IsHandOf table.now hand.old }
    requires root { IsRoot table.now root }
    requires idle { IsIdle hand.old.me }
    requires holds { HoldsRoot table.now.frame root IsArmed hand.old.me }
    ensures table { IsHandOf table.now hand.new }
    ensures idle { IsIdle hand.new.me }
    ensures holds { IfOk result (λ _. HoldsRoot table.now.frame root Runs hand.new.me) }
{
    match tries(table, hand, root) {
        Withdrawn::Running => Ok(()),
        _ => Err(Wrong("the callback didn't run")),
    }
}

// Tries to remove the callback while it runs, and then waits for its end. Whether it found that the
// callback ran, no sooner than its run was about to end.
fn waits<R: Wait>(
    rt: &R,
    table: &Table,
    hand: &mut Worker,
    stage: &AtomicU64,
) -> Result<bool, Wrong>
    requires over { IsUse table.now 1 }
    requires ready { IsReady table.now 1 hand.old }
{
    let (root, _told) = armed(table, hand)?;
    stage.store(ARMED, Ordering::SeqCst);
    comes(stage, RUNNING);
    finds_run(table, hand, root)?;
    stage.store(TRIED, Ordering::SeqCst);
    let settled = removes(rt, table, hand, root, CallbackPhase::Running);
    let over = stage.load(Ordering::SeqCst) == ENDING;
    lets_go(table, hand, root, settled);
    Ok(over && settled == Settled::Ran)
}

// The same, after which the hand is left.
fn waits_once<R: Wait>(
    rt: &R,
    table: &Table,
    mut hand: Worker,
    stage: &AtomicU64,
) -> Result<bool, Wrong>
    requires over { IsUse table.now 1 }
    requires ready { IsReady table.now 1 hand }
{
    let told = waits(rt, table, &mut hand, stage);
    drop(hand);
    told
}

fn waits_beside<R: Threads + Wait + Sync>(
    rt: &R,
    table: &Table,
    first: Worker,
    second: Worker,
    stage: &AtomicU64,
) -> Result<bool, Wrong>
    requires over { IsUse table.now 1 }
    requires first { IsReady table.now 0 first }
    requires second { IsReady table.now 1 second }
{
    let (_unit, found) = join(
        rt,
        move ||
            requires { IsUse table.now 1 × IsReady table.now 0 first }
        { runs_once(table, first, stage) },
        move || -> Result<bool, Wrong>
            requires { IsSync R.row × IsUse table.now 1 × IsReady table.now 1 second }
        { waits_once(rt, table, second, stage) },
    );
    found
}

// The same on a table of their own.
pub(super) fn waits_for_the_run<R: Threads + Wait + Sync>(
    rt: &R,
    alloc: Global,
) -> Result<bool, Fail> {
    let (table, first, second) = shared(alloc, 1)?;
    let stage = AtomicU64::new(0);
    let told = waits_beside(rt, &table, first, second, &stage);
    drop(table);
    Ok(told?)
}
