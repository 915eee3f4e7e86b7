//! The start of the operation that an `ahead`'s first child is.
ghost use Rattle.std.specs.Prelude.{◌≡◌, None, IfOk, IsOk};
ghost use Rattle.exec_value.specs.Place.{AreInPlace};
ghost use Rattle.home_items.specs.Entries.{args_of};
ghost use Rattle.step_parts.specs.Takes.{Keeps};
ghost use Rattle.serve_ahead.specs.Spawned.{spawned_start};
ghost use Rattle.serve_ahead.specs.Takes.{HasAtHand};

use crate::taking::AheadAt;
use exec_recv::{Env, Item, Site};
use op_slot::Hand;
use std::alloc::AllocError;
use step_parts::{Taken, copy_args};

/// The environment of the operation that the `ahead`'s first child runs as: a start of the receiver
/// node that names this child, with the arguments, the record number and `asked` of the `ahead`.
/// Where the arguments stand in place, it wants no memory.
pub fn first_env<R, G>(
    site: &Site<R, G>,
    hand: &mut Hand<Item>,
    at: AheadAt,
    taken: &Taken,
) -> Result<Env, AllocError>
    requires has { HasAtHand site.now at taken.now None hand.old }
    ensures keeps { Keeps site.now taken.now hand.old hand.new }
    ensures ok { IfOk result (λ spawned. spawned ≡ spawned_start at.first taken.now.start) }
    ensures in_place { AreInPlace (args_of taken.now.start) → IsOk result }
{
    let args = copy_args(site, hand, taken)?;
    let number = taken.number();
    let asked = taken.asked();
    Ok(Env::of_record(site.plan, args, number, asked).naming_first(at.first))
}
