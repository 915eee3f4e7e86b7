//! What a bulk whose parts have run finds in the homes.
ghost use Rattle.std.specs.Prelude.{◌≤◌, ◌<◌};
ghost use Rattle.plan_shape.specs.declared.limits.TheConstants.{BULK_PARTS};
ghost use Rattle.exec_recv.specs.Sites.{node_at};
ghost use Rattle.step_parts.specs.Takes.{IsOpen};
ghost use Rattle.exec_bulk.specs.Kinds.{IsBulkNode};
ghost use Rattle.exec_bulk.specs.Made.{HasNoPart};
ghost use Rattle.exec_bulk.specs.Opens.{MayLook, LooksAtRow, GathersPart, GathersParts};

use crate::joining::Made;
use crate::rows::{first_part, numbers_of};
use op_slot::Hand;
use step_parts::{Item, Site, Taken, gather_child};

/// What a bulk keeps of its child.
#[derive(Clone, Copy)]
pub(crate) struct KeptRow {
    /// How many numbers the row has.
    pub(crate) room: usize,
    /// Whether the child saw a request.
    pub(crate) saw: bool,
}

/// Looks at the row that the bulk keeps of its child, which stays where it lies.
///
/// Step: one load of the node's control word, by which the hand turns to its home.
/// Needs: the bulk keeps a parcel of its child.
#[inline(always)]
pub(crate) fn look_row<R, G>(site: &Site<R, G>, hand: &mut Hand<Item>, taken: &Taken) -> KeptRow
    requires may { MayLook site.now taken.now hand.old }
    ensures { LooksAtRow site.now taken.now result hand.old hand.new }
{
    match hand.item_mut(site.table, taken.name()) {
        Some(item) => KeptRow {
            room: numbers_of(item.kept()).len(),
            saw: item.kept_saw(),
        },
        None => unreachable!(),
    }
}

// Adds the parcel of the part of this number where it lies, and empties the part's home.
#[inline(always)]
fn gather_part<R, G>(
    site: &Site<R, G>,
    hand: &mut Hand<Item>,
    taken: &Taken,
    part: u32,
    made: &mut Made,
)
    requires part { part < BULK_PARTS }
    requires kind { IsBulkNode (node_at site.now taken.now.name) }
    requires opened { IsOpen site.now taken.now hand.old }
    ensures { GathersPart site.now taken.now part made.old made.new hand.old hand.new }
{
    let child = first_part(taken.name().node) + part;
    if !gather_child(site, hand, taken, child, made) {
        made.want();
    }
}

/// Takes the parcels of the first `count` parts, which were begun, out of their homes, and adds
/// them up where they lie. Nothing lies in the homes of the others.
///
/// Step: those of `gather_child` for each of them.
#[inline(always)]
pub(crate) fn gather_parts<R, G>(
    site: &Site<R, G>,
    hand: &mut Hand<Item>,
    taken: &Taken,
    count: u32,
    made: &mut Made,
)
    requires few { count ≤ BULK_PARTS }
    requires none { HasNoPart made.old }
    requires kind { IsBulkNode (node_at site.now taken.now.name) }
    requires opened { IsOpen site.now taken.now hand.old }
    ensures { GathersParts site.now taken.now count made.new hand.old hand.new }
{
    for part in 0..count {
        gather_part(site, hand, taken, part, made);
    }
}
