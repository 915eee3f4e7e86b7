//! How a step takes up its node.
ghost use Rattle.std.specs.Option.{option_map};
ghost use Rattle.std.specs.Prelude.{◌≡◌, true, None, Some, IfSome};
ghost use Rattle.node_tree.specs.Tree.{is_child};
ghost use Rattle.home_items.specs.Entries.{child_of};
ghost use Rattle.home_items.specs.Parcels.{delivery_of};
ghost use Rattle.exec_recv.specs.Sites.{node_at, MayStep};
ghost use Rattle.step_parts.specs.Takes.{IsFoundBelow, IsOnlyChild, IsOpen, TakesBack, TakesChild, TakesFound, TakesKept, TakesOne, TakesState, TakesUp};

use crate::found::Found;
use crate::origin::Origin;
use crate::taken::{Mark, Taken, TakenUp};
use exec_recv::{Item, Label, Parcel, Site};
use exec_value::Completion;
use home_items::{Shown, State};
use life_rules::Name;
use op_slot::Hand;
use plan_rules::NodeId;
use std::mem;

/// Takes up the node, whose step begins here. The answer says besides how far the node has come.
///
/// Step: one load of the node's control word, by which the hand turns to its home.
/// Afterwards: what lies in the homes is as it was. Of a node that has its start still, which has
/// just begun, the homes of the children are empty.
#[inline(always)]
pub fn take_up<R, G>(site: &Site<R, G>, hand: &mut Hand<Item>, name: Name) -> (Taken, State)
    requires may { MayStep site.now name hand.old }
    ensures { TakesState site.now name result.0 result.1 hand.old hand.new }
{
    let origin = Origin::of(hand);
    match hand.item_mut(site.table, name) {
        Some(item) => {
            item.known();
            let taken = Taken {
                name,
                mark: Mark::for_number(item.number(), item.asked()),
                shown: Shown::of(item),
                origin,
            };
            (taken, item.state())
        }
        None => unreachable!(),
    }
}

/// Takes up the node as `take_up` does. The answer says last which child the operation runs, where
/// the node is the receiver node. Else it says none.
#[inline(always)]
pub fn take_up_top<R, G>(
    site: &Site<R, G>,
    hand: &mut Hand<Item>,
    name: Name,
) -> (Taken, State, Option<NodeId>)
    requires may { MayStep site.now name hand.old }
    ensures takes { TakesState site.now name result.0 result.1 hand.old hand.new }
    ensures child { result.2 ≡ child_of result.0.start }
{
    let origin = Origin::of(hand);
    match hand.item_mut(site.table, name) {
        Some(item) => {
            item.known();
            let taken = Taken {
                name,
                mark: Mark::for_number(item.number(), item.asked()),
                shown: Shown::of(item),
                origin,
            };
            (taken, item.state(), item.child())
        }
        None => unreachable!(),
    }
}

// Empties the home, whose item keeps nothing elsewhere in memory: there is nothing to drop.
#[inline(always)]
pub(crate) fn empty(home: &mut Option<Item>)
    ensures { home.new ≡ None }
{
    mem::forget(home.take());
}

/// Takes what lies in the home of a child of the node: the parcel with which the child completed,
/// or nothing. A node with several children is opened by as many calls.
///
/// Step: one load of the child's control word, by which the hand turns to its home.
/// Afterwards: the child's home is empty.
#[inline(always)]
pub fn take_child<R, G>(
    site: &Site<R, G>,
    hand: &mut Hand<Item>,
    taken: &Taken,
    child: NodeId,
) -> Option<Parcel>
    requires child { is_child site.now.frame.tree taken.now.name.node child ≡ true }
    requires opened { IsOpen site.now taken.now hand.old }
    ensures { TakesChild site.now taken.now child result hand.old hand.new }
{
    let below = Name {
        node: child,
        ..taken.name
    };
    match hand.home_mut(site.table, below) {
        Some(home) => match home {
            Some(item) => {
                let parcel = item.take_done(site.alloc);
                empty(home);
                Some(parcel)
            }
            None => None,
        },
        None => unreachable!(),
    }
}

/// Takes what lies in the home of a child of the node, as `take_child` does. What the child
/// completed with moves into `done`, in place of what is no more wanted. Where nothing lay in the
/// home, `done` stays.
#[inline(always)]
pub fn take_child_into<R, G>(
    site: &Site<R, G>,
    hand: &mut Hand<Item>,
    taken: &Taken,
    child: NodeId,
    done: &mut Completion,
) -> Option<Label>
    requires child { is_child site.now.frame.tree taken.now.name.node child ≡ true }
    requires opened { IsOpen site.now taken.now hand.old }
    ensures takes { TakesChild site.now taken.now child
        (option_map (λ label. delivery_of label done.new) result)
        hand.old hand.new }
    ensures stays { result ≡ None → done.new ≡ done.old }
{
    let below = Name {
        node: child,
        ..taken.name
    };
    match hand.home_mut(site.table, below) {
        Some(home) => match home {
            Some(item) => {
                let label = item.give_done(site.alloc, done);
                empty(home);
                Some(label)
            }
            None => None,
        },
        None => unreachable!(),
    }
}

/// Takes what the node keeps of its child out of its home.
///
/// Step: one load of the node's control word.
#[inline(always)]
pub fn take_kept<R, G>(site: &Site<R, G>, hand: &mut Hand<Item>, taken: &Taken) -> Option<Parcel>
    requires opened { IsOpen site.now taken.now hand.old }
    ensures { TakesKept site.now taken.now result hand.old hand.new }
{
    match hand.item_mut(site.table, taken.name) {
        Some(item) => item.take_kept(),
        None => unreachable!(),
    }
}

/// Takes what lies in the home of the only child of a node that has begun and awaits one child at a
/// time: the parcel with which the child completed, or nothing.
///
/// Step: that of `take_child`.
/// Needs: this is the node's only child, where it has one. It runs with the node's arguments.
/// Afterwards: the homes of the node's children are empty.
#[inline(always)]
pub fn take_back<R, G>(
    site: &Site<R, G>,
    hand: &mut Hand<Item>,
    taken: &Taken,
    child: NodeId,
) -> Option<Parcel>
    requires only { IsOnlyChild site.now taken.now.name (Some child) }
    requires one { TakesOne (node_at site.now taken.now.name) (Some child) }
    requires opened { IsOpen site.now taken.now hand.old }
    ensures takes { TakesBack site.now taken.now child result hand.old hand.new }
    ensures found { IfSome result (IsFoundBelow site.now taken.now child hand.new.me) }
{
    take_child(site, hand, taken, child)
}

/// Takes what lies in the home of the only child, as `take_back` does. What the child completed
/// with moves into `done`, in place of what is no more wanted. Where nothing lay in the home,
/// `done` stays.
#[inline(always)]
pub fn take_back_into<R, G>(
    site: &Site<R, G>,
    hand: &mut Hand<Item>,
    taken: &Taken,
    child: NodeId,
    done: &mut Completion,
) -> Option<Label>
    requires only { IsOnlyChild site.now taken.now.name (Some child) }
    requires one { TakesOne (node_at site.now taken.now.name) (Some child) }
    requires opened { IsOpen site.now taken.now hand.old }
    ensures takes { TakesBack site.now taken.now child
        (option_map (λ label. delivery_of label done.new) result)
        hand.old hand.new }
    ensures stays { result ≡ None → done.new ≡ done.old }
{
    take_child_into(site, hand, taken, child, done)
}

/// Takes up a node that awaits one child at a time, with what its child completed with.
///
/// Step: those of `take_up`; of a node that has begun those of `take_child` besides, and where no
/// parcel lay there those of `take_kept`.
/// Needs: the node isn't the receiver node, awaits one child at a time, and has this child alone,
/// or none.
/// Afterwards: the homes of its children are empty, and its own keeps no parcel.
#[inline(always)]
pub fn take_one<R, G>(
    site: &Site<R, G>,
    hand: &mut Hand<Item>,
    name: Name,
    child: Option<NodeId>,
) -> TakenUp
    requires may { MayStep site.now name hand.old }
    requires only { IsOnlyChild site.now name child }
    requires one { TakesOne (node_at site.now name) child }
    ensures { TakesUp site.now name child result hand.old hand.new }
{
    let (taken, state) = take_up(site, hand, name);
    match state {
        State::Start => TakenUp {
            taken,
            found: Found::Begun,
        },
        _ => find_below(site, hand, taken, child),
    }
}

// Takes of a node that has begun what its child completed with, or else what it kept of it.
#[inline(always)]
fn find_below<R, G>(
    site: &Site<R, G>,
    hand: &mut Hand<Item>,
    taken: Taken,
    child: Option<NodeId>,
) -> TakenUp
    requires only { IsOnlyChild site.now taken.name child }
    requires one { TakesOne (node_at site.now taken.name) child }
    requires opened { IsOpen site.now taken hand.old }
    ensures taken { result.taken ≡ taken }
    ensures found { TakesFound site.now taken child result.found hand.old hand.new }
{
    match child {
        Some(below) => match take_back(site, hand, &taken, below) {
            Some(parcel) => TakenUp {
                taken,
                found: Found::Back(parcel),
            },
            None => {
                let kept = take_kept(site, hand, &taken);
                TakenUp {
                    taken,
                    found: Found::Again(kept),
                }
            }
        },
        None => {
            let kept = take_kept(site, hand, &taken);
            TakenUp {
                taken,
                found: Found::Again(kept),
            }
        }
    }
}
