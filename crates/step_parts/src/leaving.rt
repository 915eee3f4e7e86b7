//! How a step ends where its node goes on later.
ghost use Rattle.std.specs.Prelude.{◌≡◌, Some};
ghost use Rattle.life_rules.specs.declared.event.Resting.TheVariants.{Parked as IsParked};
ghost use Rattle.table_steps.specs.Takes.{resting_in};
ghost use Rattle.home_items.specs.Contents.{Rest};
ghost use Rattle.home_items.specs.Parcels.{IsDelivery, delivery_of};
ghost use Rattle.step_parts.specs.Changes.{ChangesTo};
ghost use Rattle.step_parts.specs.Leaves.{MayLeave, LeavesAt};
ghost use Rattle.step_parts.specs.Takes.{IsTaken};

use crate::taken::Taken;
use exec_recv::{Item, Label, Next, Parcel, Site};
use exec_value::Completion;
use life_rules::Name;
use node_tree::Context;
use op_slot::Hand;

// Leaves the node's start in its home, with what it keeps of its child. The node is named.
#[inline(always)]
pub(crate) fn rest<R, G>(
    site: &Site<R, G>,
    hand: &mut Hand<Item>,
    taken: Taken,
    kept: Option<Parcel>,
) -> Name
    requires taken { IsTaken site.now taken hand.old }
    ensures name { result ≡ taken.name }
    ensures changes { ChangesTo site.now taken (Rest taken.start kept) hand.old hand.new }
{
    let Taken {
        name,
        mark: _,
        shown: _,
        origin: _,
    } = taken;
    match hand.item_mut(site.table, name) {
        Some(item) => match kept {
            Some(parcel) => item.keep(parcel),
            None => item.rest(),
        },
        None => unreachable!(),
    }
    name
}

/// Leaves the node ready in the context, with what it keeps of its child.
///
/// Step: one load of the node's control word, by which the hand turns to its home, and that of
/// `rest`.
/// Needs: the parcel is of its child. The node may rest so.
/// Afterwards: the hand holds the node no more.
#[inline(always)]
pub fn leave_at_rest<R, G>(
    site: &Site<R, G>,
    hand: &mut Hand<Item>,
    taken: Taken,
    kept: Option<Parcel>,
    on: Context,
) -> Next
    requires may { MayLeave site.now taken kept hand.old }
    ensures { LeavesAt site.now taken kept (resting_in on) result hand.old hand.new }
{
    let name = rest(site, hand, taken, kept);
    site.table.rest(hand, name, on);
    Next::ready_in(on)
}

// Leaves the node's start in its home, with what its child completed with. The node is named.
#[inline(always)]
pub(crate) fn rest_keeping<R, G>(
    site: &Site<R, G>,
    hand: &mut Hand<Item>,
    taken: Taken,
    label: Label,
    done: &mut Completion,
) -> Name
    requires taken { IsTaken site.now taken hand.old }
    requires lawful { IsDelivery (delivery_of label done.old) }
    ensures name { result ≡ taken.name }
    ensures changes { ChangesTo site.now taken
        (Rest taken.start (Some (delivery_of label done.old))) hand.old hand.new }
{
    let Taken {
        name,
        mark: _,
        shown: _,
        origin: _,
    } = taken;
    match hand.item_mut(site.table, name) {
        Some(item) => item.keep_done(label, done),
        None => unreachable!(),
    }
    name
}

/// Leaves the node ready in the context, with what its child completed with, which moves into its
/// home. What is said of `leave_at_rest` is said of this.
#[inline(always)]
pub fn leave_keeping<R, G>(
    site: &Site<R, G>,
    hand: &mut Hand<Item>,
    taken: Taken,
    label: Label,
    done: &mut Completion,
    context: Context,
) -> Next
    requires may { MayLeave site.now taken (Some (delivery_of label done.old)) hand.old }
    requires lawful { IsDelivery (delivery_of label done.old) }
    ensures { LeavesAt site.now taken (Some (delivery_of label done.old)) (resting_in context)
        result hand.old hand.new }
{
    let name = rest_keeping(site, hand, taken, label, done);
    site.table.rest(hand, name, context);
    Next::ready_in(context)
}

/// Leaves the node parked. What is said of `leave_at_rest` is said of this.
///
/// Step: one load of the node's control word, and that of `park`.
#[inline(always)]
pub fn leave_parked<R, G>(
    site: &Site<R, G>,
    hand: &mut Hand<Item>,
    taken: Taken,
    kept: Option<Parcel>,
) -> Next
    requires may { MayLeave site.now taken kept hand.old }
    ensures { LeavesAt site.now taken kept IsParked result hand.old hand.new }
{
    let name = rest(site, hand, taken, kept);
    site.table.park(hand, name);
    Next::Parked
}
