//! How a node hops into a context.
ghost use Rattle.std.specs.Prelude.{None, Some};
ghost use Rattle.home_items.specs.Parcels.{IsDelivery, delivery_of};
ghost use Rattle.exec_hop.specs.Ends.{MayHop};
ghost use Rattle.exec_hop.specs.Hops.{LandsIn};

use exec_value::Completion;
use node_tree::Context;
use op_slot::Hand;
use std::sync::Wait;
use step_parts::{
    Gate, Item, Label, Next, Site, Taken, complete_stopped, leave_at_rest, leave_keeping,
};

/// Leaves the node ready in the context, with what its child completed with, which moves into its
/// home. Where a request was made before the operation was started, it completes stopped.
#[inline(always)]
pub(crate) fn hop_keeping<R: Wait, G: Gate>(
    site: &Site<R, G>,
    hand: &mut Hand<Item>,
    taken: Taken,
    label: Label,
    done: &mut Completion,
    on: Context,
) -> Next
    requires may { MayHop site.now taken (Some (delivery_of label done.old)) hand.old }
    requires lawful { IsDelivery (delivery_of label done.old) }
    ensures { LandsIn site.now taken on (Some (delivery_of label done.old)) result
        hand.old hand.new }
{
    if taken.asked() {
        drop(label);
        return complete_stopped(site, hand, taken, false);
    }
    leave_keeping(site, hand, taken, label, done, on)
}

/// Leaves the node ready in the context, where it keeps nothing. Where a request was made before
/// the operation was started, it completes stopped.
#[inline(always)]
pub(crate) fn hop<R: Wait, G: Gate>(
    site: &Site<R, G>,
    hand: &mut Hand<Item>,
    taken: Taken,
    on: Context,
) -> Next
    requires may { MayHop site.now taken None hand.old }
    ensures { LandsIn site.now taken on None result hand.old hand.new }
{
    if taken.asked() {
        return complete_stopped(site, hand, taken, false);
    }
    leave_at_rest(site, hand, taken, None, on)
}
