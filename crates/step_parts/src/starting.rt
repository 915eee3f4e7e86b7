//! How a step starts a child of its node, which the hand goes on with.
ghost use Rattle.std.specs.Prelude.{◌≡◌, true, false, None, IfSome, IfNone, MatchOption, is_some};
ghost use Rattle.exec_value.specs.Place.{AreInPlace};
ghost use Rattle.node_tree.specs.Tree.{is_root};
ghost use Rattle.table_steps.specs.Readings.{KnowsIdle};
ghost use Rattle.home_items.specs.Contents.{Rest};
ghost use Rattle.home_items.specs.Entries.{carried_of, asked_of};
ghost use Rattle.home_items.specs.Items.{start_in, GoesOn};
ghost use Rattle.step_parts.specs.Changes.{LiesAt, ChangesTo};
ghost use Rattle.step_parts.specs.Starts.{data_in, MayBegin, MayRun, AwaitsChild, Begins, StartsChild, StartsAgain, StartsTop};
ghost use Rattle.step_parts.specs.Takes.{IsTaken, Keeps};
ghost use Rattle.step_parts.specs.Wants.{MayWant, EndsWanting};

use crate::copying::Carried;
use crate::leaving::leave_at_rest;
use crate::taken::Taken;
use crate::wanting::without_memory;
use exec_recv::{Env, Gate, Item, Next, Site};
use exec_value::{Data, Datum, copy_data};
use life_rules::Name;
use node_tree::Context;
use op_slot::Hand;
use plan_rules::NodeId;
use std::alloc::{AllocError, Global};
use std::sync::Wait;

// Leaves the node, whose start lies in its home, awaiting its child, and begins the child with
// these arguments.
#[inline(always)]
fn go_below<R, G>(
    site: &Site<R, G>,
    hand: &mut Hand<Item>,
    taken: Taken,
    child: NodeId,
    args: Data,
    asked: bool,
) -> Next
    requires may { MayBegin site.now taken child args asked hand.old }
    requires lies { LiesAt site.now taken (Rest taken.start None) hand.old.me }
    ensures { AwaitsChild site.now taken child args asked result hand.old hand.new }
{
    let below = Env::below(&taken, child, args, taken.number(), asked);
    let Taken {
        name,
        mark: _,
        shown: _,
        origin: _,
    } = taken;
    site.table
        .begin_child(hand, name, child, Item::starting(below));
    Next::Go(child)
}

// The same with this copy of the node's arguments, out of the step's way. Where there is none, the
// step ends for want of memory.
#[inline(never)]
fn go_on_apart<R: Wait, G: Gate>(
    site: &Site<R, G>,
    hand: &mut Hand<Item>,
    taken: Taken,
    child: NodeId,
    copy: Option<Data>,
    asked: bool,
) -> Next
    requires may { IfSome copy (λ args. MayBegin site.now taken child args asked hand.old) }
    requires lies { IfSome copy (λ _. LiesAt site.now taken (Rest taken.start None) hand.old.me) }
    requires wants { IfNone copy (MayWant site.now taken hand.old) }
    ensures awaits { IfSome copy
        (λ args. AwaitsChild site.now taken child args asked result hand.old hand.new) }
    ensures ends { IfNone copy (EndsWanting site.now taken result hand.old hand.new) }
{
    match copy {
        Some(args) => go_below(site, hand, taken, child, args, asked),
        None => without_memory(site, hand, taken),
    }
}

// A copy of the arguments that lie here; then the start alone lies here. None where there is no
// memory for it, which doesn't come where the arguments stand in place.
#[inline(never)]
fn copy_resting(item: &mut Item, alloc: Global) -> Option<Data>
    requires { GoesOn item.old }
    ensures copies { IfSome result (λ copy. copy ≡ carried_of (start_in item.old)) }
    ensures rests { IfSome result (λ _. item.new ≡ Rest (start_in item.old) None) }
    ensures stays { IfNone result (item.new ≡ item.old) }
    ensures in_place { AreInPlace (carried_of (start_in item.old)) → is_some result ≡ true }
{
    match copy_data(alloc, item.args()) {
        Ok(copy) => {
            item.rest();
            Some(copy)
        }
        Err(AllocError) => None,
    }
}

// A copy of the node's arguments; then the node's start alone lies in its home. None where there is
// no memory for it, which doesn't come where the arguments stand in place.
#[inline(always)]
fn rest_and_copy<R, G>(site: &Site<R, G>, hand: &mut Hand<Item>, taken: &Taken) -> Option<Carried>
    requires taken { IsTaken site.now taken.now hand.old }
    ensures changes { MatchOption result (Keeps site.now taken.now hand.old hand.new)
        (λ _. ChangesTo site.now taken.now (Rest taken.now.start None) hand.old hand.new) }
    ensures copies { IfSome result (λ copy. data_in copy ≡ carried_of taken.now.start) }
    ensures in_place { AreInPlace (carried_of taken.now.start) → is_some result ≡ true }
{
    match hand.item_mut(site.table, taken.name) {
        Some(item) => match Carried::of(site.alloc, item.args()) {
            Ok(args) => {
                item.rest();
                Some(args)
            }
            Err(AllocError) => None,
        },
        None => unreachable!(),
    }
}

/// Begins a child of the node with these arguments, and leaves the node awaiting it.
///
/// Step: one load of the node's control word, by which the hand turns to its home, and those of
/// `begin_child`.
/// Needs: the hand knows that the child hasn't begun.
/// Afterwards: the hand holds the child in place of the node, and may step it.
#[inline(always)]
pub fn begin<R, G>(
    site: &Site<R, G>,
    hand: &mut Hand<Item>,
    taken: Taken,
    child: NodeId,
    args: Data,
    asked: bool,
) -> Next
    requires may { MayBegin site.now taken child args asked hand.old }
    ensures { Begins site.now taken child args asked result hand.old hand.new }
{
    match hand.item_mut(site.table, taken.name) {
        Some(item) => item.rest(),
        None => unreachable!(),
    }
    go_below(site, hand, taken, child, args, asked)
}

/// Begins the only child of a node that has just begun, with the node's own arguments. Where there
/// is no memory for them, the node completes with want of memory. Where they are one text, it goes
/// on later in place of that, in the loop.
///
/// Step: one load of the node's control word, and those of `begin_child`. Where there is no memory,
/// two loads of that word, and those of `complete`, or of `leave_at_rest`.
/// Needs: the node isn't the receiver node. The child runs with its arguments.
#[inline(always)]
pub fn start_child<R: Wait, G: Gate>(
    site: &Site<R, G>,
    hand: &mut Hand<Item>,
    taken: Taken,
    child: NodeId,
    asked: bool,
) -> Next
    requires inner { is_root site.now.frame.tree taken.name.node ≡ false }
    requires may { MayRun site.now taken child asked hand.old }
    requires idle { KnowsIdle taken.name child hand.old.me }
    ensures { StartsChild site.now taken child result hand.old hand.new }
{
    match hand.item_mut(site.table, taken.name) {
        Some(item) => match item.args().one_int() {
            Some(number) => {
                item.rest();
                let args = Data::one(site.alloc, Datum::Int(number));
                go_below(site, hand, taken, child, args, asked)
            }
            None => {
                let copy = copy_resting(item, site.alloc);
                go_on_apart(site, hand, taken, child, copy, asked)
            }
        },
        None => unreachable!(),
    }
}

/// Reads whether the node's only child has begun, and starts it where it hasn't. That it has
/// doesn't come; then the node goes on later, in the loop.
///
/// Step: one load of the child's control word, and then those of `start_child`, or of
/// `leave_at_rest`.
#[inline(never)]
pub fn start_again<R: Wait, G: Gate>(
    site: &Site<R, G>,
    hand: &mut Hand<Item>,
    taken: Taken,
    child: NodeId,
    asked: bool,
) -> Next
    requires inner { is_root site.now.frame.tree taken.name.node ≡ false }
    requires may { MayRun site.now taken child asked hand.old }
    ensures { StartsAgain site.now taken child result hand.old hand.new }
{
    let node = Name {
        node: child,
        ..taken.name
    };
    if site.table.has_begun(hand, node) {
        return leave_at_rest(site, hand, taken, None, Context::Loop);
    }
    start_child(site, hand, taken, child, asked)
}

/// Begins the child that the receiver node's start names. Where there is no memory for it, the
/// receiver node is left ready in the loop, with no parcel: what is collected there is want of
/// memory. In a small plan that doesn't come.
///
/// Step: one load of the node's control word, and those of `begin_child`, or of `leave_at_rest`.
/// Needs: the node is the receiver node.
#[inline(always)]
pub fn start_top<R, G>(
    site: &Site<R, G>,
    hand: &mut Hand<Item>,
    taken: Taken,
    child: NodeId,
) -> Next
    requires root { is_root site.now.frame.tree taken.name.node ≡ true }
    requires may { MayRun site.now taken child (asked_of taken.start) hand.old }
    requires idle { KnowsIdle taken.name child hand.old.me }
    ensures { StartsTop site.now taken child result hand.old hand.new }
{
    let asked = taken.asked();
    match rest_and_copy(site, hand, &taken) {
        Some(copy) => {
            let args = copy.into_data(site.alloc);
            go_below(site, hand, taken, child, args, asked)
        }
        None => leave_at_rest(site, hand, taken, None, Context::Loop),
    }
}
