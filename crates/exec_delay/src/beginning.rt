//! How a `delay` begins to wait.
ghost use Rattle.exec_recv.specs.Sites.{Steps};
ghost use Rattle.exec_delay.specs.Begins.{MayBegin, BeginsWaiting};

use op_slot::Hand;
use std::sync::Wait;
use step_parts::{Gate, Item, Next, Site, Taken, complete_stopped, leave_parked, listen};

/// Listens to the source above the node, and parks the node. Where a stop is requested there, it
/// completes stopped instead.
pub(crate) fn begin_delay<R: Wait, G: Gate>(
    site: &Site<R, G>,
    hand: &mut Hand<Item>,
    taken: Taken,
) -> Next
    requires may { MayBegin site.now taken hand.old }
    ensures steps { Steps site.now taken.name result taken.from hand.new }
    ensures begins { BeginsWaiting site.now taken result hand.old hand.new }
{
    if listen(site, hand, &taken) {
        return complete_stopped(site, hand, taken, true);
    }
    leave_parked(site, hand, taken, None)
}
