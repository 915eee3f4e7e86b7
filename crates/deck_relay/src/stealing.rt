//! How a deck steals.
ghost use Rattle.std.specs.Prelude.{◌≡◌, ◌<◌, map, length, IfSome, IfNone};
ghost use Rattle.crossbeam_deque.specs.Handles.{worker_flavor, worker_view};
ghost use Rattle.deck_relay.specs.Decks.{theft_view, theft_deque};
ghost use Rattle.deck_relay.specs.Steals.{Steals, Missed, AllMissed, BringsHome, IsSameOwner};

use crate::deques::{Even, Gives, Owner, Takes};
use crate::thefts::Theft;
use crate::tokens::Tokens;
use crossbeam_deque::Steal;
use life_rules::Name;
use std::alloc::Global;

/// How many names a steal takes at most. Each steal is a step that the other deque's owner and all
/// its thieves contend for, so several names share one. They are few, since a name that moves waits
/// behind the one that its hand serves next, until another hand steals it there.
pub const MOST_STOLEN: usize = 8;

// One steal: a name, and perhaps more, which come into the thief's own deque.
pub(crate) fn steal(theft: &mut Theft, own: &mut Owner) -> Option<Name>
    requires first_in { worker_flavor own.old ≡ 0 }
    requires part { 0 < (worker_view own.old).share }
    ensures deque { theft_deque theft.new ≡ theft_deque theft.old }
    ensures own { IsSameOwner own.old own.new }
    ensures stolen { IfSome result (Steals theft.old theft.new own.old own.new) }
    ensures same { IfNone result (theft_view theft.new ≡ theft_view theft.old) }
    ensures kept { IfNone result (worker_view own.new ≡ worker_view own.old) }
    ensures missed { IfNone result (Missed theft.old theft.new) }
{
    let pass = &mut theft.pass;
    match theft
        .stealer
        .steal_batch_and_pop_as::<Global, Tokens, Even, Takes, Gives>(pass, own, MOST_STOLEN)
    {
        Steal::Success(name) => Some(name),
        Steal::Empty => None,
        Steal::Retry => None,
    }
}

// One round: a steal from each deque but the one at this place, until one gives a name. The others
// that it takes with that one come into the thief's own deque.
pub(crate) fn steal_round(thefts: &mut [Theft], own: &mut Owner, place: u32) -> Option<Name>
    requires first_in { worker_flavor own.old ≡ 0 }
    requires part { 0 < (worker_view own.old).share }
    ensures deques { map theft_deque thefts.new ≡ map theft_deque thefts.old }
    ensures own { IsSameOwner own.old own.new }
    ensures stolen { IfSome result (BringsHome place thefts.old thefts.new own.old own.new) }
    ensures same { IfNone result (map theft_view thefts.new ≡ map theft_view thefts.old) }
    ensures kept { IfNone result (worker_view own.new ≡ worker_view own.old) }
    ensures missed { IfNone result (AllMissed place thefts.old thefts.new) }
{
    let passed = place as usize;
    for k in 0..thefts.len() {
        if k == passed {
            continue;
        }
        match steal(&mut thefts[k], own) {
            Some(name) => return Some(name),
            None => {}
        }
    }
    None
}
