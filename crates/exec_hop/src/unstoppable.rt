//! The step of an `unstoppable` ([exec.unstoppable]).
use crate::ending::pass_on;
use home_items::State;
use life_rules::Name;
use op_slot::Hand;
use plan_rules::Node;
use std::sync::Wait;
use step_parts::{Gate, Item, Kind, Next, Site, start_again, start_child, take_back, take_up};

/// Each `unstoppable`: it starts its child as if no request was made, and completes as the child
/// does.
pub struct Unstoppables;

impl Kind for Unstoppables {
    ghost use Rattle.exec_hop.specs.Kinds.{IsUnstoppable};
    ghost use Rattle.exec_hop.specs.Hops.{Shelters};

    ghost is = { IsUnstoppable };

    ghost does = { Shelters };

    /// Step: those of `take_up`, and then those of `start_child`, or of `complete`.
    #[inline(never)]
    fn step<R: Wait, G: Gate>(site: &Site<R, G>, hand: &mut Hand<Item>, name: Name) -> Next {
        match site.node(name) {
            Node::Unstoppable { child } => {
                let (taken, state) = take_up(site, hand, name);
                match state {
                    State::Start => start_child(site, hand, taken, *child, false),
                    _ => match take_back(site, hand, &taken, *child) {
                        Some(parcel) => pass_on(site, hand, taken, parcel),
                        None => start_again(site, hand, taken, *child, false),
                    },
                }
            }
            _ => unreachable!(),
        }
    }
}
