//! How the places of a bucket move on to where they stand at a turn.
ghost use Rattle.std.specs.Prelude.{◌≡◌, ◌<◌};
ghost use Rattle.timer_wheel.specs.Settling.{homes_at, IsSettledBut, NoneBelongs};
ghost use Rattle.timer_wheel.specs.declared.buckets.TheConstants.{BUCKETS};

use crate::buckets::bucket_of;
use crate::lists::Lists;

/// Empties a bucket that no pair belongs to at this turn, into those that its pairs belong to.
pub fn settle(lists: &mut Lists, due_turns: &[Option<u64>], turn: u64, bucket: u32)
    requires bucket { bucket < BUCKETS }
    requires others { IsSettledBut bucket turn due_turns.now lists.old }
    requires none { NoneBelongs bucket turn due_turns.now }
    ensures { lists.new ≡ homes_at turn due_turns.now }
{
    while let Some(place) = lists.pop(bucket) {
        let due = due_turns[place as usize].unwrap();
        lists.push(place, bucket_of(turn, due));
    }
}
