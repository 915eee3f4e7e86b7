//! The sleeper of one hand.
ghost use Rattle.std.specs.Prelude.{◌≡◌, ◌<◌};

use crossbeam_utils::CachePadded;
use crossbeam_utils::atomic::AtomicCell;
use crossbeam_utils::sync::{Parker, Unparker};
use std::alloc::Global;
use std::sync::{Arc, Wait};

/// How many hands may have a sleeper: 16 workers and hand 0.
pub const MOST_HANDS: u32 = 17;

// How many hands are counted as searching when one more may not begin to search by itself.
const MOST_SEARCHERS: u64 = 2;

/// What the sleepers share.
#[derive(Drop)]
pub(crate) struct Room {
    /// A bit for each hand that is asleep.
    pub(crate) asleep: CachePadded<AtomicCell<u64>>,
    /// How many hands search.
    pub(crate) searching: CachePadded<AtomicCell<u64>>,
    pub(crate) unparkers: Vec<Unparker>,
    /// The last place.
    pub(crate) last: u32,
}

/// The sleeper of one hand. One thread at a time has it.
#[derive(Drop)]
pub struct Sleeper {
    pub(crate) room: Arc<Room, Global>,
    pub(crate) parker: Parker,
    pub(crate) place: u32,
    ghost within: { place < 17 },
}

impl Sleeper {
    /// Its place among the sleepers.
    pub fn place(&self) -> u32
        ensures { result ≡ self.now.place }
    {
        self.place
    }

    /// Counts this hand as searching, where at most one other is. The last hand may always look.
    pub fn try_search(&self) -> bool {
        if self.is_last() {
            return true;
        }
        for others in 0..MOST_SEARCHERS {
            if self
                .room
                .searching
                .compare_exchange(others, others + 1)
                .is_ok()
            {
                return true;
            }
        }
        false
    }

    // Whether it is the last hand, which isn't counted as searching.
    fn is_last(&self) -> bool {
        self.place == self.room.last
    }

    /// No hand sleeps or searches, but perhaps the last: a name that this hand keeps for itself is
    /// missed by none of them.
    pub fn all_work(&self) -> bool {
        self.room.searchers() == 0 && self.room.searching.load() == 0
    }

    /// This hand, which is counted as searching, searches no more.
    pub fn leave_search(&self) {
        if !self.is_last() {
            self.room.searching.fetch_sub(1);
        }
    }

    /// Sets the bit of this hand. It looks once more before it parks.
    pub fn lie_down(&self) {
        self.room.asleep.fetch_or(1 << self.place);
    }

    /// Sleeps until a token comes.
    pub fn park<R: Wait>(&self, rt: &R) {
        self.parker.park(rt);
    }

    /// Takes the bit of this hand down. False where another took it: then this hand is counted as
    /// searching, but the last.
    pub fn get_up(&self) -> bool {
        self.room.take_bit(self.place)
    }

    /// Wakes a hand that is asleep, but the last, where nobody searches. True where it woke one.
    pub fn wake_one(&self) -> bool {
        for _tries in 0..MOST_HANDS {
            let asleep = self.room.searchers();
            if asleep == 0 || self.room.is_searched() {
                return false;
            }
            if self.room.wake(asleep.trailing_zeros()) {
                return true;
            }
        }
        // Each time another was first.
        self.wake_all();
        true
    }

    /// Wakes the hand at this place, if it is asleep. It is counted as searching.
    pub fn wake(&self, place: u32) -> bool {
        self.room.wake(place)
    }

    /// Wakes the hand of the last place, if it is asleep. It isn't counted as searching.
    pub fn wake_last(&self) -> bool {
        self.room.wake_last()
    }

    /// Gives each hand a token, whether it is asleep or not.
    pub fn wake_all(&self) {
        for unparker in self.room.unparkers.iter() {
            unparker.unpark();
        }
    }
}

impl Room {
    // The bits of the hands that are asleep, but that of the last, which doesn't search.
    fn searchers(&self) -> u64 {
        self.asleep.load() & !1u64.wrapping_shl(self.last)
    }

    // Whether a hand searches. Where it seems so the count is read by an exchange: what this hand
    // stored before is then seen by a look that follows the end of that search.
    fn is_searched(&self) -> bool {
        self.searching.load() != 0 && self.searching.fetch_add(0) != 0
    }

    // Takes the bit of a hand down. True where it was set.
    fn take_bit(&self, place: u32) -> bool {
        let bit = 1u64.wrapping_shl(place);
        self.asleep.load() & bit != 0 && self.asleep.fetch_and(!bit) & bit != 0
    }

    // Gives the hand a token.
    fn unpark(&self, place: u32) {
        if let Some(unparker) = self.unparkers.get(place as usize) {
            unparker.unpark();
        }
    }

    // Counts a hand as searching, takes its bit and gives it a token. It is counted first: a hand
    // that finds its bit gone leaves the search. Where the bit was gone, its count is taken back.
    fn wake(&self, place: u32) -> bool {
        self.searching.fetch_add(1);
        if !self.take_bit(place) {
            self.searching.fetch_sub(1);
            return false;
        }
        self.unpark(place);
        true
    }

    // Takes the bit of the last hand, and gives it a token.
    fn wake_last(&self) -> bool {
        let woken = self.take_bit(self.last);
        if woken {
            self.unpark(self.last);
        }
        woken
    }
}
