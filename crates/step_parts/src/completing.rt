//! How a step ends where its node completes ([exec.recv]).
ghost use Rattle.std.specs.Prelude.{false};
ghost use Rattle.exec_value.specs.declared.outcome.Completion.TheVariants.{Stopped, Value};
ghost use Rattle.home_items.specs.Entries.{carried_of};
ghost use Rattle.step_parts.specs.Completes.{MayEnd, MayStop, Completes};

use crate::settling::settle;
use crate::taken::Taken;
use exec_recv::{Gate, Item, Next, Site, deliver};
use exec_value::Completion;
use op_slot::Hand;
use std::sync::Wait;

/// Settles the node's callback, puts the completion into its home, and delivers it to its parent.
///
/// Step: those of `settle`, one load of the node's control word, by which the hand turns to its
/// home, and then those of `deliver`.
/// Needs: the node isn't the receiver node, and may complete so.
/// Afterwards: the node is done. Go names its parent, where it was the last of its children.
#[inline(always)]
pub fn complete<R: Wait, G: Gate>(
    site: &Site<R, G>,
    hand: &mut Hand<Item>,
    taken: Taken,
    done: &mut Completion,
    saw: bool,
) -> Next
    requires may { MayEnd site.now taken done.old saw hand.old }
    ensures { Completes site.now taken done.old saw result hand.old hand.new }
{
    settle(site, hand, &taken);
    let Taken {
        name,
        mark: _,
        shown: _,
        origin: _,
    } = taken;
    let failed = match hand.item_mut(site.table, name) {
        Some(item) => item.end(done, saw),
        None => unreachable!(),
    };
    deliver(site, hand, name, failed)
}

/// Completes the node stopped: a request was made before the operation was started, or was seen.
#[cold]
#[inline(never)]
pub fn complete_stopped<R: Wait, G: Gate>(
    site: &Site<R, G>,
    hand: &mut Hand<Item>,
    taken: Taken,
    saw: bool,
) -> Next
    requires may { MayStop site.now taken saw hand.old }
    ensures { Completes site.now taken Stopped saw result hand.old hand.new }
{
    let mut done = Completion::Stopped;
    complete(site, hand, taken, &mut done, saw)
}

/// Completes the node with its arguments as a value: they go from where they lie into its
/// completion.
///
/// Step: as `complete`.
#[inline(always)]
pub fn complete_with_args<R: Wait, G: Gate>(
    site: &Site<R, G>,
    hand: &mut Hand<Item>,
    taken: Taken,
) -> Next
    requires may { MayEnd site.now taken (Value (carried_of taken.start)) false hand.old }
    ensures { Completes site.now taken (Value (carried_of taken.start)) false result
        hand.old hand.new }
{
    settle(site, hand, &taken);
    let Taken {
        name,
        mark: _,
        shown: _,
        origin: _,
    } = taken;
    match hand.item_mut(site.table, name) {
        Some(item) => item.end_with_args(site.alloc),
        None => unreachable!(),
    }
    deliver(site, hand, name, false)
}
