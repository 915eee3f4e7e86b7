//! What a `when_all` that has begun finds in the homes of its children.
ghost use Rattle.step_parts.specs.Kids.{AreKids};
ghost use Rattle.step_parts.specs.Takes.{IsOpen};
ghost use Rattle.exec_all.specs.Opens.{TakesAll};

use crate::joining::{Joining, both};
use op_slot::Hand;
use plan_rules::NodeId;
use step_parts::{Item, Site, Taken, gather_child};

/// Takes the parcels of these children out of their homes. None where some home was empty.
///
/// Step: those of `gather_child`, for each child.
#[inline(always)]
pub(crate) fn take_all<R, G>(
    site: &Site<R, G>,
    hand: &mut Hand<Item>,
    taken: &Taken,
    children: &[NodeId],
) -> Option<Joining>
    requires kids { AreKids site.now taken.now.name children.now }
    requires opened { IsOpen site.now taken.now hand.old }
    ensures { TakesAll site.now taken.now children.now result hand.old hand.new }
{
    let mut joining = Joining::none(site.alloc);
    let mut all = true;
    for child in children {
        let found = gather_child(site, hand, taken, *child, &mut joining);
        all = both(all, found);
    }
    if !all {
        drop(joining);
        return None;
    }
    Some(joining)
}
