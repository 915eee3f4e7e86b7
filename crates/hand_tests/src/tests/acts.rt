//! What tests do with futures, one after the other, and whether it is told so.
ghost use Rattle.std.specs.Prelude.{◌≤◌};
ghost use Rattle.std.specs.Thread.{IsSync};
ghost use Rattle.plan_kinds.specs.Runnable.{IsRunnable};
ghost use Rattle.exec_recv.specs.Sites.{IsSite};
ghost use Rattle.spawn_future.specs.Keeping.{IsKeeping};

use super::{NoMail, Poll, Spawn, opened, owner, plan_of, poll_for, spawn_for};
use count_scope::close;
use exec_recv::{OpenGate, Site};
use node_stepper::NodeSteps;
use node_tree::Context;
use node_walks::serve_place;
use op_table::Hand;
use plan_shape::Plan;
use spawn_future::{Futures, Item, Stepper};
use std::alloc::Global;
use std::sync::Wait;

// What a test does, and what is told of it.
#[derive(Clone, Copy)]
enum Act {
    Spawns(u32, Spawn),
    Polls(u32, Poll),
    Abandons(u32, bool),
    Sweeps(u32),
    Keeps(u32),
    // the node of this number in this block is ready in the pool, and is served
    Serves(u32, u32),
    Closes,
}

// Whether what is done is told so.
fn is_told<T: Stepper, R: Wait + Sync>(
    site: &Site<R, T>,
    hand: &mut Hand<Item>,
    futures: &mut Futures,
    act: Act,
) -> bool
    requires sync { IsSync R.row }
    requires site { IsSite site.now }
    requires keeping { IsKeeping site.now futures.old hand.old }
    ensures keeping { IsKeeping site.now futures.new hand.new }
{
    match act {
        Act::Spawns(node, told) => spawn_for(site, hand, futures, owner(node)) == told,
        Act::Polls(node, told) => poll_for(site, hand, futures, owner(node)) == told,
        Act::Abandons(node, told) => futures.abandon(owner(node)) == told,
        Act::Sweeps(count) => futures.sweep(site.table, hand, site.gate) == count,
        Act::Keeps(count) => futures.kept() == count,
        Act::Serves(block, node) => {
            if block >= site.table.blocks() || node >= site.table.tree().size() {
                return false;
            }
            let mail = &mut NoMail;
            serve_place(site, hand, mail, block, node, Context::Pool).is_some()
        }
        Act::Closes => {
            close(site.table, hand);
            true
        }
    }
}

// Sweeps until no future is kept: none of them waits.
fn end<T: Stepper, R: Wait + Sync>(site: &Site<R, T>, hand: &mut Hand<Item>, futures: Futures)
    requires sync { IsSync R.row }
    requires site { IsSite site.now }
    requires keeping { IsKeeping site.now futures hand.old }
{
    let mut left = futures;
    for _ in site.rt.forever() {
        if left.kept() == 0 {
            left.close();
            return;
        }
        left.sweep(site.table, hand, site.gate);
    }
    unreachable!()
}

// Whether all that is done is told so.
fn all_told<T: Stepper, R: Wait + Sync>(
    site: &Site<R, T>,
    hand: &mut Hand<Item>,
    futures: &mut Futures,
    acts: &[Act],
) -> bool
    requires sync { IsSync R.row }
    requires site { IsSite site.now }
    requires keeping { IsKeeping site.now futures.old hand.old }
    ensures keeping { IsKeeping site.now futures.new hand.new }
{
    let mut as_told = true;
    for act in acts {
        let told = is_told(site, hand, futures, *act);
        as_told = as_told && told;
    }
    as_told
}

// The same of futures that are kept for it, and which are swept and closed then.
fn told_and_ended<T: Stepper, R: Wait + Sync>(
    site: &Site<R, T>,
    hand: &mut Hand<Item>,
    futures: Futures,
    acts: &[Act],
) -> bool
    requires sync { IsSync R.row }
    requires site { IsSite site.now }
    requires keeping { IsKeeping site.now futures hand.old }
{
    let mut kept = futures;
    let told = all_told(site, hand, &mut kept, acts);
    end(site, hand, kept);
    told
}

// Whether all that is done with so many slots and so many blocks is told so, over this plan.
fn are_told_over<R: Wait + Sync>(
    rt: &R,
    alloc: Global,
    plan: &Plan,
    most: u32,
    blocks: u32,
    acts: &[Act],
) -> bool
    requires sync { IsSync R.row }
    requires kinds { IsRunnable plan.now }
    requires some { 1 ≤ most }
    requires few { most ≤ 3 }
    requires some_blocks { 1 ≤ blocks }
    requires few_blocks { blocks ≤ 3 }
{
    let Some((table, mut hand)) = opened(alloc, plan, blocks) else {
        return false;
    };
    match Futures::open(alloc, most) {
        Ok(futures) => {
            let stepper = NodeSteps::of(plan, &OpenGate);
            let site = Site::of(rt, alloc, &table, &stepper);
            let told = told_and_ended(&site, &mut hand, futures, acts);
            drop(hand);
            drop(table);
            told
        }
        Err(_) => {
            drop(hand);
            drop(table);
            false
        }
    }
}

// The same over the plan with this root.
fn are_told<R: Wait + Sync>(
    rt: &R,
    alloc: Global,
    root: &str,
    most: u32,
    blocks: u32,
    acts: &[Act],
) -> bool
    requires sync { IsSync R.row }
    requires some { 1 ≤ most }
    requires few { most ≤ 3 }
    requires some_blocks { 1 ≤ blocks }
    requires few_blocks { blocks ≤ 3 }
{
    let Some(plan) = plan_of(alloc, root) else {
        return false;
    };
    let told = are_told_over(rt, alloc, &plan, most, blocks, acts);
    drop(plan);
    told
}

/// A value at once.
const INPUT: &str = r#"{"do":"input"}"#;

#[test]
fn a_future_is_polled_once(rt: HostRuntime) {
    let acts = [
        Act::Polls(1, Poll::Unknown),
        Act::Spawns(1, Spawn::Spawned),
        Act::Keeps(1),
        Act::Spawns(1, Spawn::Not),
        Act::Spawns(1, Spawn::Spawned),
        Act::Spawns(2, Spawn::Spawned),
        Act::Keeps(2),
        Act::Polls(2, Poll::Five),
        Act::Polls(2, Poll::Unknown),
        Act::Polls(1, Poll::Five),
        Act::Keeps(0),
    ];
    assert!(rt; are_told(&rt, rt.alloc(), INPUT, 2, 2, &acts));
}

#[test]
fn a_refusal_keeps_nothing(rt: HostRuntime) {
    let alloc = rt.alloc();
    let full = [
        Act::Spawns(1, Spawn::Spawned),
        Act::Spawns(2, Spawn::Full),
        Act::Polls(1, Poll::Five),
        Act::Spawns(2, Spawn::Spawned),
        Act::Polls(2, Poll::Five),
    ];
    assert!(rt; are_told(&rt, alloc, INPUT, 1, 3, &full));
    let many = [
        Act::Spawns(1, Spawn::Spawned),
        Act::Spawns(2, Spawn::Spawned),
        Act::Spawns(3, Spawn::Scope),
        Act::Polls(1, Poll::Five),
        Act::Closes,
        Act::Spawns(3, Spawn::Scope),
        Act::Polls(2, Poll::Five),
    ];
    assert!(rt; are_told(&rt, alloc, INPUT, 3, 3, &many));
    let blocks = [
        Act::Spawns(1, Spawn::Spawned),
        Act::Spawns(2, Spawn::NoBlock),
        Act::Spawns(3, Spawn::NoBlock),
        Act::Polls(1, Poll::Five),
        Act::Spawns(3, Spawn::Spawned),
        Act::Polls(3, Poll::Five),
    ];
    assert!(rt; are_told(&rt, alloc, INPUT, 3, 1, &blocks));
}

#[test]
fn an_abandoned_operation_runs_to_its_end(rt: HostRuntime) {
    let acts = [
        Act::Spawns(1, Spawn::Spawned),
        Act::Polls(1, Poll::Waiting),
        Act::Abandons(1, true),
        Act::Abandons(1, false),
        Act::Polls(1, Poll::Unknown),
        Act::Keeps(1),
        Act::Sweeps(0),
        Act::Spawns(1, Spawn::Spawned),
        Act::Keeps(2),
        Act::Spawns(2, Spawn::Full),
        Act::Serves(0, 1),
        Act::Sweeps(1),
        Act::Keeps(1),
        Act::Polls(1, Poll::Waiting),
        Act::Serves(1, 1),
        Act::Sweeps(0),
        Act::Polls(1, Poll::Five),
        Act::Keeps(0),
    ];
    let root = r#"{"do":"starts_on","on":"pool","child":{"do":"input"}}"#;
    assert!(rt; are_told(&rt, rt.alloc(), root, 2, 2, &acts));
}

#[test]
fn the_node_that_is_asked_for_is_served(rt: HostRuntime) {
    let acts = [
        Act::Spawns(1, Spawn::Spawned),
        Act::Spawns(2, Spawn::Spawned),
        Act::Serves(1, 0),
        Act::Polls(2, Poll::Five),
        Act::Spawns(3, Spawn::Spawned),
        Act::Serves(1, 0),
        Act::Polls(3, Poll::Five),
        Act::Serves(0, 0),
        Act::Polls(1, Poll::Five),
        Act::Polls(2, Poll::Unknown),
    ];
    let root =
        r#"{"do":"then","child":{"do":"schedule","on":"pool"},"job":{"job":"give","values":[5]}}"#;
    assert!(rt; are_told(&rt, rt.alloc(), root, 2, 2, &acts));
}
