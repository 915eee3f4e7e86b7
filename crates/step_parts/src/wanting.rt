//! How a step ends where there is no memory for it.
ghost use Rattle.std.specs.Prelude.{◌≡◌, false};
ghost use Rattle.exec_value.specs.declared.outcome.Completion.TheVariants.{NoMemory};
ghost use Rattle.step_parts.specs.Completes.{MayEnd, Completes};
ghost use Rattle.step_parts.specs.Wants.{is_text_alone, MayWant, EndsWanting};

use crate::completing::complete;
use crate::leaving::leave_at_rest;
use crate::taken::Taken;
use exec_recv::{Gate, Item, Next, Site};
use exec_value::{Completion, Data, Datum};
use node_tree::Context;
use op_slot::Hand;
use std::sync::Wait;

/// Completes the node with want of memory.
///
/// Step: those of `complete`.
/// Needs: as `complete`; so the plan isn't small.
#[cold]
#[inline(never)]
pub fn want_memory<R: Wait, G: Gate>(site: &Site<R, G>, hand: &mut Hand<Item>, taken: Taken) -> Next
    requires may { MayEnd site.now taken NoMemory false hand.old }
    ensures { Completes site.now taken NoMemory false result hand.old hand.new }
{
    let mut done = Completion::NoMemory;
    complete(site, hand, taken, &mut done, false)
}

// The data are one text.
fn is_text_alone(values: &Data) -> bool
    ensures { result ≡ is_text_alone values.now }
{
    matches!(values.as_slice(), [Datum::Text(_)])
}

/// Ends the step of a node that can't copy its arguments for a child: it completes with want of
/// memory. But where its arguments are one text the plan may be small: then the node goes on later,
/// in the loop. Copies of one text want no memory, so that this doesn't come.
///
/// Step: one load of the node's control word, and those of `complete`, or of `leave_at_rest`.
/// Needs: as `complete`; and a small plan only where the arguments are one text.
#[cold]
#[inline(never)]
pub(crate) fn without_memory<R: Wait, G: Gate>(
    site: &Site<R, G>,
    hand: &mut Hand<Item>,
    taken: Taken,
) -> Next
    requires may { MayWant site.now taken hand.old }
    ensures { EndsWanting site.now taken result hand.old hand.new }
{
    let later = match hand.item_mut(site.table, taken.name) {
        Some(item) => is_text_alone(item.args()),
        None => unreachable!(),
    };
    if later {
        return leave_at_rest(site, hand, taken, None, Context::Loop);
    }
    want_memory(site, hand, taken)
}
