//! How an `ahead` that is parked is taken.
ghost use Rattle.std.specs.Prelude.{IfSome, IfNone};
ghost use Rattle.life_rules.specs.declared.event.Resting.TheVariants.{Parked as IsParked};
ghost use Rattle.table_steps.specs.Takes.{MayServe};
ghost use Rattle.table_steps.specs.Views.{IsHandOf, IsPlaceIn, Stays, knows};
ghost use Rattle.exec_recv.specs.Sites.{IsSite};
ghost use Rattle.node_walks.specs.Resting.{IsAtRest};
ghost use Rattle.serve_ahead.specs.Takes.{IsAheadIn, TakesAhead, MissesAhead};

use exec_recv::{Gate, Item, Parcel, Point, Site};
use life_rules::Name;
use op_slot::Hand;
use plan_rules::NodeId;
use step_parts::{Taken, TakenUp, take_one};

/// An `ahead` of an operation, and its children.
#[derive(Clone, Copy, Debug)]
pub struct AheadAt {
    pub name: Name,
    pub first: NodeId,
    pub second: NodeId,
}

/// What the hand has of an `ahead` that it took.
pub struct Served {
    pub taken: Taken,
    /// What its second child completed with. None where that hasn't begun.
    pub second: Option<Parcel>,
}

/// Takes the `ahead` where it is parked, and what its second child completed with. None only where
/// its word that was read didn't say that it is parked, at its generation.
///
/// Step: that of `take_parked`, before which the gate is passed, and where it took the node those
/// of `take_one`.
/// Needs: hand 0, which is at rest. The node is an `ahead` of the table's plan, whose kinds match.
/// Afterwards: the hand has the `ahead` at hand, and nothing besides. All else that its view says
/// is as before, but for the list of its steps.
pub fn take_ahead<R, G: Gate>(
    site: &Site<R, G>,
    hand: &mut Hand<Item>,
    at: AheadAt,
) -> Option<Served>
    requires hand { IsHandOf site.now hand.old }
    requires site { IsSite site.now }
    requires node { IsAheadIn site.now at }
    requires place { IsPlaceIn site.now at.name }
    requires serves { MayServe IsParked (knows hand.old) }
    requires rests { IsAtRest (knows hand.old) }
    ensures stays { Stays site.now hand.old hand.new }
    ensures took { IfSome result (TakesAhead site.now at hand.old hand.new) }
    ensures missed { IfNone result (MissesAhead site.now at hand.old.me hand.new.me) }
{
    site.pass(Point::Take(at.name));
    if !site.table.take_parked(hand, at.name) {
        return None;
    }
    let TakenUp { taken, found } = take_one(site, hand, at.name, Some(at.second));
    Some(Served {
        taken,
        second: found.into_parcel(),
    })
}
