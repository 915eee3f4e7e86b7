//! How a step asks the source that its node hears ([exec.get.stop.token]).
ghost use Rattle.step_parts.specs.Heard.{Looked, LooksOnce};
ghost use Rattle.step_parts.specs.Takes.{IsTaken, Keeps};

use crate::taken::Taken;
use exec_recv::{Item, Site};
use op_slot::Hand;
use stop_calls::{source_above, stop_requested};

/// Whether a stop is requested on the source that the node hears. False where it hears none.
///
/// Step: one load of the source's word, where it hears one.
/// Afterwards: a request that was read is seen. Where none was read, the hand wasn't told of one
/// either.
pub fn hear<R, G>(site: &Site<R, G>, hand: &mut Hand<Item>, taken: &Taken) -> bool
    requires taken { IsTaken site.now taken.now hand.old }
    ensures keeps { Keeps site.now taken.now hand.old hand.new }
    ensures looked { Looked site.now taken.now.name result hand.old.me hand.new.me }
    ensures once { LooksOnce site.now taken.now.name result hand.old hand.new }
{
    match source_above(site.table.tree(), taken.name) {
        Some(source) => stop_requested(site.table, hand, source),
        None => false,
    }
}
