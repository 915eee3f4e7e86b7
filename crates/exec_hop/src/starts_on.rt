//! The step of a `starts_on` ([exec.starts.on]).
use crate::ending::{pass_unless_stopped, start_unless_stopped};
use crate::hopping::hop;
use home_items::State;
use life_rules::Name;
use op_slot::Hand;
use plan_rules::Node;
use std::sync::Wait;
use step_parts::{Gate, Item, Kind, Next, Site, hear, take_back, take_up};

/// Each `starts_on`: it hops, when it is taken there it starts its child, and it completes as the
/// child does.
pub struct StartsOns;

impl Kind for StartsOns {
    ghost use Rattle.exec_hop.specs.Kinds.{IsStartsOn};
    ghost use Rattle.exec_hop.specs.Hops.{StartsOn};

    ghost is = { IsStartsOn };

    ghost does = { StartsOn };

    /// Step: those of `take_up`, and then those of `leave_at_rest`; or a look, and those of
    /// `start_again`; or those of `complete`.
    #[inline(never)]
    fn step<R: Wait, G: Gate>(site: &Site<R, G>, hand: &mut Hand<Item>, name: Name) -> Next {
        match site.node(name) {
            Node::StartsOn { on, child } => {
                let (taken, state) = take_up(site, hand, name);
                match state {
                    State::Start => hop(site, hand, taken, *on),
                    _ => match take_back(site, hand, &taken, *child) {
                        Some(parcel) => pass_unless_stopped(site, hand, taken, parcel, false),
                        None => {
                            let saw = hear(site, hand, &taken);
                            start_unless_stopped(site, hand, taken, *child, saw)
                        }
                    },
                }
            }
            _ => unreachable!(),
        }
    }
}
