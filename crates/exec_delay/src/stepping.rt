//! The step of a `delay`.
use crate::beginning::begin_delay;
use crate::ending::end_delay;
use life_rules::Name;
use op_slot::Hand;
use std::sync::Wait;
use step_parts::{Gate, Item, Kind, Next, Site, TakenUp, complete_stopped, take_one};

/// Each `delay`.
///
/// From its start it registers its callback on the source that it hears, and then looks there:
/// where a stop is requested, it completes stopped; else it is parked. Once it was parked it is
/// taken when it is due, or when its callback made it ready: then it removes the callback, and
/// completes stopped where that ran, and else with no data.
pub struct Delays;

impl Kind for Delays {
    ghost use Rattle.exec_delay.specs.Kinds.{IsDelay};
    ghost use Rattle.exec_delay.specs.Steps.{StepsDelay};

    ghost is = { IsDelay };

    ghost does = { λ board x next old new. StepsDelay board x next old new };

    /// Step: those of its start, or of its end.
    #[inline(never)]
    fn step<R: Wait, G: Gate>(site: &Site<R, G>, hand: &mut Hand<Item>, name: Name) -> Next {
        let TakenUp { taken, found } = take_one(site, hand, name, None);
        let begins = found.is_new();
        if taken.asked() {
            return complete_stopped(site, hand, taken, false);
        }
        if begins {
            return begin_delay(site, hand, taken);
        }
        end_delay(site, hand, taken)
    }
}
