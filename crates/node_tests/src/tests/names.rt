//! A name is a hint: one that was kept until its block was given again takes nothing.
ghost use Rattle.std.specs.Prelude.{IfSome};
ghost use Rattle.std.specs.Thread.{IsSync};
ghost use Rattle.plan_kinds.specs.Runnable.{IsRunnable};
ghost use Rattle.exec_recv.specs.Sites.{IsSite};
ghost use Rattle.node_walks.specs.Completes.{IsListed};
ghost use Rattle.run_loop.specs.Loops.{IsReady};

use super::{looping, plan_of, starts};
use exec_recv::{OpenGate, Site};
use life_rules::{Name, Resting};
use node_stepper::NodeSteps;
use node_tree::Context;
use node_walks::{Mail, serve};
use plan_shape::Plan;
use run_loop::{Block, Loop, Stepper};
use std::alloc::Global;
use std::sync::Wait;

/// Who keeps no name.
#[derive(Drop)]
struct Nobody;

impl Mail for Nobody {
    ghost use Rattle.std.specs.Prelude.{◌≡◌, ⊤};

    ghost keeps = { λ _ _. ⊤ };

    ghost hears = { λ _ _ old new. new ≡ old };

    ghost none = { λ _. tt };

    ghost on = { λ _ _ _ _ _. tt };

    fn ready<R: Wait + Sync>(&mut self, _rt: &R, _name: Name, _on: Context) {}
}

// Starts the plan's operation, and gives the name of its `starts_on`, which waits in the pool.
pub(crate) fn begins<T: Stepper, R: Wait + Sync>(
    site: &Site<R, T>,
    looped: &mut Loop,
) -> Option<(Block, Name)>
    requires sync { IsSync R.row }
    requires ready { IsReady site.now looped.old }
    requires site { IsSite site.now }
    ensures ready { IsReady site.now looped.new }
    ensures listed { IfSome result (λ begun. IsListed site.now begun.0 looped.new.hand.me) }
{
    let Some(block) = starts(site, looped, false) else {
        return None;
    };
    let name = Name {
        node: 1,
        ..site.table.root(block)
    };
    Some((block, name))
}

// Whether this name takes its node out of the pool. The operation in the block is left to be
// collected.
fn takes<T: Stepper, R: Wait + Sync>(
    site: &Site<R, T>,
    looped: &mut Loop,
    block: Block,
    name: Name,
) -> bool
    requires sync { IsSync R.row }
    requires ready { IsReady site.now looped.old }
    requires site { IsSite site.now }
    requires listed { IsListed site.now block looped.old.hand.me }
    ensures ready { IsReady site.now looped.new }
    ensures listed { IsListed site.now block looped.new.hand.me }
{
    let _ = block;
    if name.block >= site.table.blocks() || name.node >= site.table.tree().size() {
        return false;
    }
    let hand = &mut looped.hand;
    serve(site, hand, &mut Nobody, name, Resting::Pool)
}

// Whether the operation in this block is collected.
pub(crate) fn collects<T: Stepper, R: Wait + Sync>(
    site: &Site<R, T>,
    looped: &mut Loop,
    block: Block,
) -> bool
    requires sync { IsSync R.row }
    requires ready { IsReady site.now looped.old }
    requires site { IsSite site.now }
    requires listed { IsListed site.now block looped.old.hand.me }
    ensures ready { IsReady site.now looped.new }
{
    match looped.collect(site.table, block, site.gate) {
        Some(found) => {
            drop(found);
            true
        }
        None => false,
    }
}

// Whether the name of the first operation takes its node once. The name comes back where the
// operation was collected.
fn is_taken_once<T: Stepper, R: Wait + Sync>(
    site: &Site<R, T>,
    looped: &mut Loop,
) -> Option<(Name, bool)>
    requires sync { IsSync R.row }
    requires ready { IsReady site.now looped.old }
    requires site { IsSite site.now }
    ensures ready { IsReady site.now looped.new }
{
    let (block, kept) = begins(site, looped)?;
    let first = takes(site, looped, block, kept);
    let again = takes(site, looped, block, kept);
    if !collects(site, looped, block) {
        return None;
    }
    Some((kept, first && !again))
}

// Whether the name of the first operation takes its node once, and none of the second, which is in
// the same block; and the name of the second takes that.
fn is_lost<T: Stepper, R: Wait + Sync>(site: &Site<R, T>, looped: &mut Loop) -> Option<bool>
    requires sync { IsSync R.row }
    requires ready { IsReady site.now looped.old }
    requires site { IsSite site.now }
{
    let (kept, once) = is_taken_once(site, looped)?;
    let (second, name) = begins(site, looped)?;
    let late = takes(site, looped, second, kept);
    let found = takes(site, looped, second, name);
    let same = second.index == kept.block;
    let collected = collects(site, looped, second);
    Some(collected && same && once && found && !late)
}

// The same of a table that is opened for it.
fn loses_a_late_name<R: Wait + Sync>(rt: &R, alloc: Global, plan: &Plan) -> Option<bool>
    requires sync { IsSync R.row }
    requires kinds { IsRunnable plan.now }
{
    let Some((table, mut looped)) = looping(alloc, plan, false) else {
        return None;
    };
    let stepper = NodeSteps::of(plan, &OpenGate);
    let site = Site::of(rt, alloc, &table, &stepper);
    let lost = is_lost(&site, &mut looped);
    drop(looped);
    drop(table);
    lost
}

// The same of the plan with this root.
fn loses<R: Wait + Sync>(rt: &R, alloc: Global, root: &str) -> Option<bool>
    requires sync { IsSync R.row }
{
    let Some(plan) = plan_of(alloc, root) else {
        return None;
    };
    let lost = loses_a_late_name(rt, alloc, &plan);
    drop(plan);
    lost
}

#[test]
fn a_name_is_lost_once_its_block_was_given_again(rt: HostRuntime) {
    let lost = loses(
        &rt,
        rt.alloc(),
        r#"{"do":"starts_on","on":"pool","child":{"do":"input"}}"#,
    );
    assert!(rt; lost == Some(true));
}
