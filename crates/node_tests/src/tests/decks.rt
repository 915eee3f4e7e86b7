//! How names travel: to a loop's deck, from which others steal, and through the loop's queue.
ghost use Rattle.std.specs.Prelude.{IfSome};
ghost use Rattle.std.specs.Thread.{IsSync};
ghost use Rattle.plan_kinds.specs.Runnable.{IsRunnable};
ghost use Rattle.exec_recv.specs.Over.{IsOver};
ghost use Rattle.exec_recv.specs.Sites.{IsSite};
ghost use Rattle.node_walks.specs.Completes.{IsListed};
ghost use Rattle.run_loop.specs.Loops.{IsReady};
ghost use Rattle.node_tests.specs.Ready.{IsFirst};

use super::names::{begins, collects};
use super::{opened, plan_of};
use deck_relay::{Deck, Relay};
use exec_recv::OpenGate;
use life_rules::Name;
use loop_queue::LoopQueue;
use node_stepper::NodeSteps;
use op_table::{Hand, OpTable};
use plan_shape::Plan;
use run_loop::{Block, Drained, Item, Loop, LoopPost, Site, Stepper};
use std::alloc::Global;
use std::sync::Wait;

// Whether the queue was emptied of one name.
fn is_one(moved: Drained) -> bool {
    matches!(moved, Drained::Emptied(1))
}

// Whether the loop drains one name where this one was posted, and a poll takes one node then. The
// operation in the block is left to be collected.
fn hears<T: Stepper, R: Wait + Sync>(
    site: &Site<R, T>,
    looped: &mut Loop,
    block: Block,
    name: Name,
    post: &mut LoopPost,
) -> bool
    requires sync { IsSync R.row }
    requires ready { IsReady site.now looped.old }
    requires site { IsSite site.now }
    requires listed { IsListed site.now block looped.old.hand.me }
    ensures ready { IsReady site.now looped.new }
    ensures listed { IsListed site.now block looped.new.hand.me }
{
    let _ = block;
    let _posted = post.post(site.rt, name);
    let moved = looped.drain(site.rt, post);
    let taken = looped.poll(site);
    let one = is_one(moved);
    one & (taken == 1)
}

// Whether this deck steals the name.
fn is_stolen<R: Wait + Sync>(rt: &R, thief: &mut Deck, name: Name) -> bool
    requires sync { IsSync R.row }
{
    thief.take(rt) == Some(name)
}

// Whether a name that the loop leaves ready in the pool is stolen by another deck, so that the loop
// that helps hears of its node only when it is posted; and where nobody steals it, the loop takes
// it.
fn travels<T: Stepper, R: Wait + Sync>(
    site: &Site<R, T>,
    looped: &mut Loop,
    thief: &mut Deck,
    post: &mut LoopPost,
) -> Option<bool>
    requires sync { IsSync R.row }
    requires ready { IsReady site.now looped.old }
    requires site { IsSite site.now }
{
    let (block, name) = begins(site, looped)?;
    let stolen = is_stolen(site.rt, thief, name);
    let heard = hears(site, looped, block, name, post);
    if !collects(site, looped, block) {
        return None;
    }
    let _begun = begins(site, looped)?;
    let fetched = looped.poll(site);
    Some(stolen && heard && fetched == 1)
}

// The last of what was opened.
fn last<T: Drop>(mut list: Vec<T>) -> Option<T> {
    let one = list.pop();
    drop(list);
    one
}

// A deck for a loop, and one that steals from it.
fn two_decks(alloc: Global) -> Option<(Deck, Deck)> {
    match Relay::open(alloc, 1) {
        Ok(mut decks) => {
            let own = decks.swap_remove(1);
            let thief = decks.swap_remove(0);
            drop(decks);
            Some((own, thief))
        }
        Err(_) => None,
    }
}

// A post of a loop's queue.
fn one_post(alloc: Global) -> Option<LoopPost> {
    match LoopQueue::open(alloc, 1) {
        Ok((queue, posts)) => {
            drop(queue);
            last(posts)
        }
        Err(_) => None,
    }
}

// A loop with this deck on the hand, which helps the pool.
fn helping(
    alloc: Global,
    plan: &Plan,
    table: &OpTable<Item>,
    hand: Hand<Item>,
    deck: Deck,
) -> Option<Loop>
    requires hand { IsFirst table.now hand }
    requires over { IsOver table.now plan.now }
    requires kinds { IsRunnable plan.now }
    ensures { IfSome result (λ looped. IsReady table.now looped) }
{
    let Ok(looped) = Loop::open(alloc, plan, table, hand) else {
        drop(deck);
        return None;
    };
    let mut looped = looped.with_deck(deck);
    looped.help_pool(true);
    Some(looped)
}

// A table of one block over the plan, and such a loop on its one hand.
fn decked(alloc: Global, plan: &Plan, deck: Deck) -> Option<(OpTable<Item>, Loop)>
    requires kinds { IsRunnable plan.now }
    ensures over { IfSome result (λ t. IsOver t.0 plan.now) }
    ensures ready { IfSome result (λ t. IsReady t.0 t.1) }
{
    match opened(alloc, plan) {
        Some((table, hand)) => match helping(alloc, plan, &table, hand, deck) {
            Some(looped) => Some((table, looped)),
            None => {
                drop(table);
                None
            }
        },
        None => {
            drop(deck);
            None
        }
    }
}

// The same of a loop that helps the pool and has this deck, and which has it still afterwards.
fn travels_over<R: Wait + Sync>(
    rt: &R,
    alloc: Global,
    plan: &Plan,
    own: Deck,
    thief: &mut Deck,
    post: &mut LoopPost,
) -> bool
    requires sync { IsSync R.row }
    requires kinds { IsRunnable plan.now }
{
    let Some((table, mut looped)) = decked(alloc, plan, own) else {
        return false;
    };
    let stepper = NodeSteps::of(plan, &OpenGate);
    let site = Site::of(rt, alloc, &table, &stepper);
    let travelled = travels(&site, &mut looped, thief, post);
    let (hand, deck) = looped.into_parts();
    drop(hand);
    drop(table);
    let kept = deck.is_some();
    drop(deck);
    travelled == Some(true) && kept
}

// The same with a post and the last of two decks that are opened for it.
fn travels_between<R: Wait + Sync>(rt: &R, alloc: Global, plan: &Plan) -> bool
    requires sync { IsSync R.row }
    requires kinds { IsRunnable plan.now }
{
    let Some(mut post) = one_post(alloc) else {
        return false;
    };
    match two_decks(alloc) {
        Some((own, mut thief)) => {
            let travelled = travels_over(rt, alloc, plan, own, &mut thief, &mut post);
            drop(thief);
            drop(post);
            travelled
        }
        None => {
            drop(post);
            false
        }
    }
}

// The same of the plan with this root.
fn travels_between_decks<R: Wait + Sync>(rt: &R, alloc: Global, root: &str) -> bool
    requires sync { IsSync R.row }
{
    let Some(plan) = plan_of(alloc, root) else {
        return false;
    };
    let travelled = travels_between(rt, alloc, &plan);
    drop(plan);
    travelled
}

#[test]
fn a_name_that_is_stolen_comes_back_by_the_queue(rt: HostRuntime) {
    let root = r#"{"do":"starts_on","on":"pool","child":{"do":"input"}}"#;
    assert!(rt; travels_between_decks(&rt, rt.alloc(), root));
}
