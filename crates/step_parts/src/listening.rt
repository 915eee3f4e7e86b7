//! How a node that has just begun listens to the source above it ([stopcallback.inplace.cons]).
ghost use Rattle.std.specs.Prelude.{◌≡◌};
ghost use Rattle.stop_calls.specs.Armings.{is_asked};
ghost use Rattle.step_parts.specs.Kids.{KeepsIdle};
ghost use Rattle.step_parts.specs.Listens.{Listens};
ghost use Rattle.step_parts.specs.Takes.{HasJustBegun, IsTaken, Keeps};

use crate::taken::Taken;
use exec_recv::{Item, Site};
use op_slot::Hand;
use stop_calls::{Armed, arm, source_above};

// The look read a request.
#[inline(always)]
fn is_asked(armed: Armed) -> bool
    ensures { result ≡ is_asked armed }
{
    matches!(armed, Armed::Asked)
}

/// Registers the node's callback on the source that the node hears, where it hears one, and then
/// looks at that source. True where a stop is requested there.
///
/// Step: those of `arm`, where the node hears a source.
/// Needs: the node has just begun.
/// Afterwards: a request that was read is seen. Where none was read, one that is made comes to the
/// callback. Of which children the hand knew that they haven't begun it knows so still.
pub fn listen<R, G>(site: &Site<R, G>, hand: &mut Hand<Item>, taken: &Taken) -> bool
    requires taken { IsTaken site.now taken.now hand.old }
    requires begun { HasJustBegun site.now taken.now.name hand.old.me }
    ensures keeps { Keeps site.now taken.now hand.old hand.new }
    ensures listens { Listens site.now taken.now.name result hand.old hand.new }
    ensures idle { KeepsIdle taken.now.name hand.old.me hand.new.me }
{
    match source_above(site.table.tree(), taken.name) {
        Some(_) => {
            let armed = arm(site.table, hand, taken.name);
            is_asked(armed)
        }
        None => false,
    }
}
