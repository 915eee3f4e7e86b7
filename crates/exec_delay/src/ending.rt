//! How a `delay` completes, once it was parked.
ghost use Rattle.exec_recv.specs.Sites.{Steps};
ghost use Rattle.exec_delay.specs.Ends.{MayGoOn, EndsWaiting};

use crate::withdrawing::withdraw_callback;
use exec_value::Completion;
use node_images::put_scheduled;
use op_slot::Hand;
use std::sync::Wait;
use step_parts::{Gate, Item, Next, Site, Taken, complete};

/// Removes the callback of the node, which was parked, and completes the node: stopped where the
/// callback ran, and else with no data.
pub(crate) fn end_delay<R: Wait, G: Gate>(
    site: &Site<R, G>,
    hand: &mut Hand<Item>,
    taken: Taken,
) -> Next
    requires may { MayGoOn site.now taken hand.old }
    ensures steps { Steps site.now taken.name result taken.from hand.new }
    ensures ends { EndsWaiting site.now taken result hand.old hand.new }
{
    let ran = withdraw_callback(site, hand, &taken);
    let mut done = Completion::Stopped;
    put_scheduled(site.alloc, ran, &mut done);
    complete(site, hand, taken, &mut done, ran)
}
