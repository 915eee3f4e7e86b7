//! How sleepers are made.
ghost use Rattle.std.specs.Prelude.{◌≤◌, IfOk};
ghost use Rattle.sleepers.specs.Places.{HavePlaces};

use crate::sleeper::{MOST_HANDS, Room, Sleeper};
use crossbeam_utils::CachePadded;
use crossbeam_utils::atomic::AtomicCell;
use crossbeam_utils::sync::Parker;
use std::alloc::{AllocError, Global};
use std::sync::Arc;

/// Sleepers for so many hands, each at its place. It fails only for want of memory.
pub fn open(alloc: Global, hands: u32) -> Result<Vec<Sleeper>, AllocError>
    requires most { hands ≤ MOST_HANDS }
    ensures places { IfOk result (λ sleepers. HavePlaces hands sleepers.items) }
{
    let mut parkers = Vec::new(alloc);
    let mut unparkers = Vec::new(alloc);
    for _made in 0..hands {
        let parker = Parker::new(alloc)?;
        unparkers.push(parker.unparker().clone()?)?;
        parkers.push(parker)?;
    }
    // a parker is popped from the back, so the first place gets the last
    unparkers.reverse();
    let room = Room {
        asleep: CachePadded::new(AtomicCell::new(0)),
        searching: CachePadded::new(AtomicCell::new(0)),
        unparkers,
        last: hands.max(1) - 1,
    };
    let room = Arc::new(alloc, room)?;
    let mut sleepers = Vec::new(alloc);
    for place in 0..hands {
        let Some(parker) = parkers.pop() else {
            unreachable!()
        };
        sleepers.push(Sleeper {
            room: Arc::try_clone(&room)?,
            parker,
            place,
        })?;
    }
    Ok(sleepers)
}
