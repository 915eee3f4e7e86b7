//! The step of a `schedule` ([exec.schedule]).
ghost use Rattle.exec_hop.specs.Ends.{MayFinish};
ghost use Rattle.exec_hop.specs.Hops.{Finishes};

use crate::hopping::hop;
use exec_value::Completion;
use home_items::State;
use life_rules::Name;
use node_images::put_scheduled;
use op_slot::Hand;
use plan_rules::Node;
use std::sync::Wait;
use step_parts::{Gate, Item, Kind, Next, Site, Taken, complete, hear, take_up};

/// Each `schedule`: it hops, and when it is taken there it completes.
pub struct Schedules;

impl Kind for Schedules {
    ghost use Rattle.exec_hop.specs.Kinds.{IsHop};
    ghost use Rattle.exec_hop.specs.Hops.{Schedules};

    ghost is = { IsHop };

    ghost does = { Schedules };

    /// Step: those of `take_up`, and then those of `leave_at_rest`, or a look, and those of
    /// `complete`.
    #[inline(never)]
    fn step<R: Wait, G: Gate>(site: &Site<R, G>, hand: &mut Hand<Item>, name: Name) -> Next {
        match site.node(name) {
            Node::Schedule(on) => {
                let (taken, state) = take_up(site, hand, name);
                match state {
                    State::Start => hop(site, hand, taken, *on),
                    _ => finish(site, hand, taken),
                }
            }
            _ => unreachable!(),
        }
    }
}

// Completes the node, which was taken in its context: with no data, or stopped where a request was
// made.
fn finish<R: Wait, G: Gate>(site: &Site<R, G>, hand: &mut Hand<Item>, taken: Taken) -> Next
    requires may { MayFinish site.now taken hand.old }
    ensures { Finishes site.now taken result hand.old hand.new }
{
    let saw = hear(site, hand, &taken);
    let stops = taken.asked() || saw;
    let mut done = Completion::Stopped;
    put_scheduled(site.alloc, stops, &mut done);
    complete(site, hand, taken, &mut done, saw)
}
