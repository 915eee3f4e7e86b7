//! How a node that may be stopped goes on where no request stops it.
ghost use Rattle.exec_hop.specs.Ends.{MayLand, MayPass, MayStart};
ghost use Rattle.exec_hop.specs.Hops.{EndsWith, Passes, StartsOrStops};

use op_slot::Hand;
use plan_rules::NodeId;
use std::sync::Wait;
use step_parts::{Gate, Item, Next, Parcel, Site, Taken, complete, complete_stopped, start_again};

/// Completes the node with what its child completed with.
#[inline(always)]
pub(crate) fn pass_on<R: Wait, G: Gate>(
    site: &Site<R, G>,
    hand: &mut Hand<Item>,
    taken: Taken,
    parcel: Parcel,
) -> Next
    requires may { MayPass site.now taken parcel hand.old }
    ensures { Passes site.now taken parcel result hand.old hand.new }
{
    let saw = parcel.saw();
    let mut done = parcel.into_completion();
    complete(site, hand, taken, &mut done, saw)
}

/// Completes the node as its child did; or stopped, where a request was made before the operation
/// was started, or the node saw one.
#[inline(always)]
pub(crate) fn pass_unless_stopped<R: Wait, G: Gate>(
    site: &Site<R, G>,
    hand: &mut Hand<Item>,
    taken: Taken,
    parcel: Parcel,
    saw: bool,
) -> Next
    requires may { MayLand site.now taken parcel saw hand.old }
    ensures { EndsWith site.now taken parcel saw result hand.old hand.new }
{
    if taken.asked() || saw {
        drop(parcel);
        return complete_stopped(site, hand, taken, saw);
    }
    pass_on(site, hand, taken, parcel)
}

/// Starts the node's child, where it hasn't begun; or completes the node stopped, where a request
/// was made before the operation was started, or the node saw one.
#[inline(always)]
pub(crate) fn start_unless_stopped<R: Wait, G: Gate>(
    site: &Site<R, G>,
    hand: &mut Hand<Item>,
    taken: Taken,
    child: NodeId,
    saw: bool,
) -> Next
    requires may { MayStart site.now taken child saw hand.old }
    ensures { StartsOrStops site.now taken child saw result hand.old hand.new }
{
    if taken.asked() || saw {
        return complete_stopped(site, hand, taken, saw);
    }
    start_again(site, hand, taken, child, false)
}
