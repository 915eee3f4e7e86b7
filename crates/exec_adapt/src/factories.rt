//! The steps of nodes that complete by themselves ([exec.factories], [exec.read.env]).
ghost use Rattle.std.specs.Prelude.{◌≡◌, ◌||◌};
ghost use Rattle.exec_adapt.specs.Ends.{MayAnswer, MayMake};
ghost use Rattle.exec_adapt.specs.Kinds.{IsPlainFactory};
ghost use Rattle.exec_adapt.specs.Adapts.{Answers, Makes};
ghost use Rattle.node_images.specs.Makes.{Makes as MakesIn};
ghost use Rattle.exec_adapt.specs.Images.{made_of};

use crate::naming::complete_named;
use exec_value::Completion;
use life_rules::Name;
use node_images::{put_shown, put_stopped, put_value};
use op_slot::Hand;
use plan_rules::{Node, Query};
use std::alloc::{AllocError, Global};
use std::sync::Wait;
use step_parts::{
    Gate, Item, Kind, Next, Site, Taken, complete, complete_with_args, hear, take_up, want_memory,
};

/// Each node that completes by itself: with what the plan says, with its arguments, or with what
/// its environment answers.
pub struct Factories;

impl Kind for Factories {
    ghost use Rattle.exec_adapt.specs.Kinds.{IsFactoryNode};
    ghost use Rattle.exec_adapt.specs.Adapts.{MakesOwn};

    ghost is = { IsFactoryNode };

    ghost does = { MakesOwn };

    /// Step: those of `take_up`, for a query of stop a look, and then those of `complete`.
    #[inline(never)]
    fn step<R: Wait, G: Gate>(site: &Site<R, G>, hand: &mut Hand<Item>, name: Name) -> Next {
        let node = site.node(name);
        let (taken, _) = take_up(site, hand, name);
        match node {
            Node::Input => complete_with_args(site, hand, taken),
            Node::JustError(error) => complete_named(site, hand, taken, error, false),
            Node::ReadEnv(query) => answer(site, hand, taken, node, *query),
            _ => make_own(site, hand, taken, node, false, false),
        }
    }
}

// One of them is so.
#[inline(always)]
fn either(one: bool, other: bool) -> bool
    ensures { result ≡ (one || other) }
{
    one || other
}

// Answers a query: one of stop looks first.
#[inline(always)]
fn answer<R: Wait, G: Gate>(
    site: &Site<R, G>,
    hand: &mut Hand<Item>,
    taken: Taken,
    node: &Node,
    query: Query,
) -> Next
    requires may { MayAnswer site.now taken node.now query hand.old }
    ensures { Answers site.now taken query result hand.old hand.new }
{
    match query {
        Query::Stop => {
            let saw = hear(site, hand, &taken);
            let stop = either(taken.asked(), saw);
            make_own(site, hand, taken, node, stop, saw)
        }
        Query::Record => make_own(site, hand, taken, node, false, false),
    }
}

// What the node completes with.
#[inline(always)]
fn put_made(
    alloc: Global,
    node: &Node,
    number: u32,
    stop: bool,
    done: &mut Completion,
) -> Result<(), AllocError>
    requires { IsPlainFactory node.now }
    ensures { MakesIn (made_of node.now number stop) done.new result }
{
    match node {
        Node::Just(values) => put_value(alloc, values, done),
        Node::JustStopped => {
            put_stopped(done);
            Ok(())
        }
        Node::ReadEnv(query) => {
            put_shown(alloc, *query, number, stop, done);
            Ok(())
        }
        _ => unreachable!(),
    }
}

// Completes the node with what the plan or its environment says.
#[inline(always)]
fn make_own<R: Wait, G: Gate>(
    site: &Site<R, G>,
    hand: &mut Hand<Item>,
    taken: Taken,
    node: &Node,
    stop: bool,
    saw: bool,
) -> Next
    requires may { MayMake site.now taken node.now stop saw hand.old }
    ensures { Makes site.now taken node.now stop saw result hand.old hand.new }
{
    let mut done = Completion::Stopped;
    match put_made(site.alloc, node, taken.number(), stop, &mut done) {
        Ok(()) => complete(site, hand, taken, &mut done, saw),
        Err(AllocError) => {
            drop(done);
            want_memory(site, hand, taken)
        }
    }
}
