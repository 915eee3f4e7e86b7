//! How a node completes with an error that the plan names.
ghost use Rattle.std.specs.Prelude.{◌≡◌};
ghost use Rattle.exec_value.specs.declared.outcome.Completion.TheVariants.{Error};
ghost use Rattle.step_parts.specs.Completes.{Completes, MayEnd};

use exec_value::{Completion, Txt};
use op_slot::Hand;
use std::alloc::AllocError;
use std::sync::Wait;
use std::thread::yield_now;
use step_parts::{Gate, Item, Next, Site, Taken, complete};

// An equal name. Where there is no memory for it, this waits. That doesn't come: one that doesn't
// stand in place is shared, so that a copy counts one owner more.
fn copy_name<R: Wait>(rt: &R, name: &Txt) -> Txt
    ensures { result ≡ name.now }
{
    for _ in rt.forever() {
        match name.clone() {
            Ok(copy) => return copy,
            Err(AllocError) => yield_now(),
        }
    }
    unreachable!()
}

/// Completes the node with the error of this name.
#[inline(never)]
pub(crate) fn complete_named<R: Wait, G: Gate>(
    site: &Site<R, G>,
    hand: &mut Hand<Item>,
    taken: Taken,
    error: &Txt,
    saw: bool,
) -> Next
    requires may { MayEnd site.now taken (Error error.now) saw hand.old }
    ensures { Completes site.now taken (Error error.now) saw result hand.old hand.new }
{
    let mut done = Completion::error(copy_name(site.rt, error));
    complete(site, hand, taken, &mut done, saw)
}
