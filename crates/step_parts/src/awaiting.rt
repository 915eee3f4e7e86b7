//! How a step awaits several children of its node at once.
ghost use Rattle.std.specs.Prelude.{Some};
ghost use Rattle.table_steps.specs.Views.{IsHandOf, Stays};
ghost use Rattle.home_items.specs.Parcels.{IsDelivery, delivery_of};
ghost use Rattle.step_parts.specs.Awaits.{MayAwaitMany, AwaitsMany};
ghost use Rattle.step_parts.specs.Puts.{MayPutStart, PutsStart};

use crate::leaving::{rest, rest_keeping};
use crate::taken::Taken;
use exec_recv::{Env, Item, Label, Parcel, Site};
use exec_value::Completion;
use life_rules::Name;
use op_slot::Hand;
use plan_rules::NodeId;

/// Leaves the node, with what it keeps of a child, until each of these children has reported. Their
/// starts are put into their homes next, each by `put_start`. The step ends once all are there.
///
/// Step: one load of the node's control word, and that of `await_children`.
/// Needs: the parcel is of a child of the node. These are children of the node, different ones and
/// at least one, and as many as the item asks for, of which the hand knows that they haven't begun.
/// Afterwards: the hand holds the node no more. It owes the start of each of these children, whose
/// homes are empty; each other start that it owes can begin.
#[inline(always)]
pub fn await_many<R, G>(
    site: &Site<R, G>,
    hand: &mut Hand<Item>,
    taken: Taken,
    kept: Option<Parcel>,
    children: &[NodeId],
)
    requires may { MayAwaitMany site.now taken kept children.now hand.old }
    ensures { AwaitsMany site.now taken kept children.now hand.old hand.new }
{
    let name = rest(site, hand, taken, kept);
    site.table.await_children(hand, name, children);
}

/// Leaves the node, with what its child completed with, until each of these children has reported.
/// That moves into the node's home. What is said of `await_many` is said of this.
#[inline(always)]
pub fn await_keeping<R, G>(
    site: &Site<R, G>,
    hand: &mut Hand<Item>,
    taken: Taken,
    label: Label,
    done: &mut Completion,
    children: &[NodeId],
)
    requires may { MayAwaitMany site.now taken (Some (delivery_of label done.old)) children.now
        hand.old }
    requires lawful { IsDelivery (delivery_of label done.old) }
    ensures { AwaitsMany site.now taken (Some (delivery_of label done.old)) children.now
        hand.old hand.new }
{
    let parent = rest_keeping(site, hand, taken, label, done);
    site.table.await_children(hand, parent, children);
}

/// Puts the child's environment into its home, where the item is made that carries it.
///
/// Step: one load of the child's control word, by which the hand turns to its home.
/// Needs: the hand owes the child's start, once, and the child's home is empty. The environment
/// shows a start that goes on with the parent's and draws the lot with which it is owed; where the
/// hand has seen no request on the source that the child hears, it rests on none.
/// Afterwards: the child can begin. What else the hand owes is as before.
#[inline(always)]
pub fn put_start<R, G>(site: &Site<R, G>, hand: &mut Hand<Item>, child: Name, below: Env)
    requires hand { IsHandOf site.now hand.old }
    requires may { MayPutStart site.now child below hand.old.me }
    ensures stays { Stays site.now hand.old hand.new }
    ensures puts { PutsStart site.now child below hand.old.me hand.new.me }
{
    match hand.home_mut(site.table, child) {
        Some(home) => {
            // so that nothing is dropped
            if home.is_some() {
                unreachable!()
            }
            *home = Some(Item::starting(below));
        }
        None => unreachable!(),
    }
}
