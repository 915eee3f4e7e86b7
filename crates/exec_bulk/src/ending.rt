//! How a bulk completes ([exec.bulk]).
ghost use Rattle.home_items.specs.Parcels.{delivery_of};
ghost use Rattle.exec_bulk.specs.Ends.{MayPass, MayEndParts};
ghost use Rattle.exec_bulk.specs.Steps.{Passes, EndsAsMade};

use crate::joining::Made;
use exec_value::Completion;
use op_slot::Hand;
use std::sync::Wait;
use step_parts::{Gate, Item, Label, Next, Site, Taken, complete, want_memory};

/// Completes as the child did, which completed with no row, or with an empty one.
#[inline(always)]
pub(crate) fn pass_on<R: Wait, G: Gate>(
    site: &Site<R, G>,
    hand: &mut Hand<Item>,
    taken: Taken,
    label: Label,
    done: &mut Completion,
) -> Next
    requires may { MayPass site.now taken (delivery_of label done.old) hand.old }
    ensures { Passes site.now taken (delivery_of label done.old) result hand.old hand.new }
{
    let saw = label.saw();
    drop(label);
    complete(site, hand, taken, done, saw)
}

/// Completes with what the parts make of the row that was kept: the row of what the job made of
/// each number, or the error of the least failing index.
#[inline(always)]
pub(crate) fn end_parts<R: Wait, G: Gate>(
    site: &Site<R, G>,
    hand: &mut Hand<Item>,
    taken: Taken,
    saw: bool,
    made: Made,
) -> Next
    requires may { MayEndParts site.now taken saw made hand.old }
    ensures { EndsAsMade site.now taken made saw result hand.old hand.new }
{
    let mut done = Completion::Stopped;
    if made.finish(site.alloc, &mut done) {
        return complete(site, hand, taken, &mut done, saw);
    }
    want_memory(site, hand, taken)
}
