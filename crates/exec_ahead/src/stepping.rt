//! How an `ahead` waits.
use life_rules::Name;
use op_slot::Hand;
use plan_rules::Node;
use std::sync::Wait;
use step_parts::{Gate, Item, Kind, Next, Site, TakenUp, leave_parked, take_one};

/// Each `ahead`: it is left parked, with its second child's parcel where that has completed. Its
/// first is no child of it in the table's tree.
pub struct Aheads;

impl Kind for Aheads {
    ghost use Rattle.exec_recv.specs.Sites.{node_at};
    ghost use Rattle.exec_ahead.specs.Kinds.{IsAhead};
    ghost use Rattle.exec_ahead.specs.Parks.{ParksAs};

    ghost is = { IsAhead };

    ghost does = { λ board x next old new. ParksAs board x (node_at board x) next old new };

    /// Step: those of `take_one`, and of `leave_parked`.
    #[inline(never)]
    fn step<R: Wait, G: Gate>(site: &Site<R, G>, hand: &mut Hand<Item>, name: Name) -> Next {
        match site.node(name) {
            Node::Ahead { first: _, second } => {
                let TakenUp { taken, found } = take_one(site, hand, name, Some(*second));
                leave_parked(site, hand, taken, found.into_parcel())
            }
            _ => unreachable!(),
        }
    }
}
