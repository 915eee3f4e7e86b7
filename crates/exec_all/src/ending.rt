//! How a `when_all` completes, once each of its children has ([exec.when.all]).
ghost use Rattle.exec_recv.specs.Sites.{Steps};
ghost use Rattle.exec_all.specs.Ends.{MayEndAll, EndsAll};

use crate::joining::Joining;
use exec_value::Completion;
use node_images::NoRoom;
use op_slot::Hand;
use std::sync::Wait;
use step_parts::{Gate, Item, Next, Site, Taken, complete, want_memory};

/// Completes with what the children complete with together: the values of all, joined in order;
/// else the error of a child that failed without having seen a request, else that of another; else
/// stopped. Where one wants memory, want of memory.
#[inline(always)]
pub(crate) fn end_all<R: Wait, G: Gate>(
    site: &Site<R, G>,
    hand: &mut Hand<Item>,
    taken: Taken,
    joining: Joining,
) -> Next
    requires may { MayEndAll site.now taken joining hand.old }
    ensures steps { Steps site.now taken.name result taken.from hand.new }
    ensures ends { EndsAll site.now taken joining result hand.old hand.new }
{
    if joining.wants_memory() {
        drop(joining);
        return want_memory(site, hand, taken);
    }
    let mut done = Completion::Stopped;
    match joining.finish(&mut done) {
        Ok(saw) => complete(site, hand, taken, &mut done, saw),
        Err(NoRoom::Memory) => want_memory(site, hand, taken),
        Err(NoRoom::Limit) => unreachable!(),
    }
}
