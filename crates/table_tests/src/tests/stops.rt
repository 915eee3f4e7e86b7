//! Stop requests and callbacks of roots, which hear the scope's source.
ghost use Rattle.std.specs.Prelude.{◌≡◌};
ghost use Rattle.table_steps.specs.Views.{IsHandOf};
ghost use Rattle.table_use.specs.Uses.{IsIdle};
ghost use Rattle.table_tests.specs.Ready.{IsUse};

use super::opening::{alone, armed, shared};
use super::pairs::{counts_each_run, waits_for_the_run};
use life_rules::{CallbackPhase, SourceRef};
use op_slot::claim_any;
use std::sync::Wait;
use std::test::Fail;
use stop_calls::{Armed, Settled, Withdrawn, stop_requested};
use table_use::{Table, Worker, asks_all, removes, removes_inside};

// Claims so many blocks.
fn claims(table: &Table, hand: &mut Worker, count: u32)
    requires { IsHandOf table.now hand.old }
    ensures { IsHandOf table.now hand.new }
{
    for _block in 0..count {
        let _ = claim_any(table, hand);
    }
}

// Whether a scan comes to the callback of a root that is begun in this block.
fn scan_comes_to<R: Wait>(rt: &R, table: &Table, hand: &mut Worker, block: u32) -> bool
    requires table { IsHandOf table.now hand.old }
    requires over { IsUse table.now table.now.frame.layout.blocks }
    requires idle { IsIdle hand.old.me }
    requires number { hand.old.me.0.number ≡ 0 }
{
    match armed(table, hand) {
        Ok((root, told)) => {
            let runs = asks_all(table, hand);
            let settled = removes(rt, table, hand, root, CallbackPhase::Armed);
            root.block == block
                && told == Armed::Quiet
                && runs == Some(1)
                && settled == Settled::Ran
        }
        Err(_) => false,
    }
}

#[test]
fn a_scan_comes_to_the_last_of_64_blocks(rt: HostRuntime) -> Result<(), Fail> {
    let (table, mut hand, mut other) = shared(rt.alloc(), 64)?;
    claims(&table, &mut other, 63);
    let told = scan_comes_to(&rt, &table, &mut hand, 63);
    drop(hand);
    drop(other);
    drop(table);
    assert!(rt; told);
    Ok(())
}

// Whether a second request finds the first, as does a callback that is registered between them.
fn second_finds_first<R: Wait>(rt: &R, table: &Table, hand: &mut Worker) -> bool
    requires table { IsHandOf table.now hand.old }
    requires over { IsUse table.now table.now.frame.layout.blocks }
    requires idle { IsIdle hand.old.me }
    requires number { hand.old.me.0.number ≡ 0 }
{
    let first = asks_all(table, hand);
    match armed(table, hand) {
        Ok((root, told)) => {
            let second = asks_all(table, hand);
            let settled = removes(rt, table, hand, root, CallbackPhase::Armed);
            let seen = stop_requested(table, hand, SourceRef::Scope);
            first == Some(0)
                && told == Armed::Asked
                && second.is_none()
                && settled == Settled::NeverRan
                && seen
        }
        Err(_) => false,
    }
}

#[test]
fn a_second_request_finds_the_first(rt: HostRuntime) -> Result<(), Fail> {
    let (table, mut hand) = alone(rt.alloc(), 1)?;
    let told = second_finds_first(&rt, &table, &mut hand);
    drop(hand);
    drop(table);
    assert!(rt; told);
    Ok(())
}

// Whether a callback is removed from inside its own run, after which none is left.
fn removes_its_own(table: &Table, hand: &mut Worker) -> bool
    requires table { IsHandOf table.now hand.old }
    requires over { IsUse table.now table.now.frame.layout.blocks }
    requires idle { IsIdle hand.old.me }
    requires number { hand.old.me.0.number ≡ 0 }
{
    match armed(table, hand) {
        Ok((root, _told)) => match removes_inside(table, hand, root) {
            Some((found, left)) => found == Withdrawn::OwnHand && left == 0,
            None => false,
        },
        Err(_) => false,
    }
}

#[test]
fn a_callback_is_removed_from_inside_it(rt: HostRuntime) -> Result<(), Fail> {
    let (table, mut hand) = alone(rt.alloc(), 1)?;
    let told = removes_its_own(&table, &mut hand);
    drop(hand);
    drop(table);
    assert!(rt; told);
    Ok(())
}

#[test]
fn each_run_is_counted_once_by_two_threads(rt: HostRuntime) -> Result<(), Fail> {
    for _round in 0..1000u32 {
        assert!(rt; counts_each_run(&rt, rt.alloc())?);
    }
    Ok(())
}

#[test]
fn a_removal_waits_for_another_hands_run(rt: HostRuntime) -> Result<(), Fail> {
    assert!(rt; waits_for_the_run(&rt, rt.alloc())?);
    Ok(())
}
