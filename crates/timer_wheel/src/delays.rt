//! The list of parked delays.
ghost use Rattle.std.specs.Prelude.{◌≡◌, ◌+◌, ◌<◌, ◌≤◌, not, IfOk, IfSome, IfNone, OnSome};
ghost use Rattle.timer_wheel.specs.declared.limits.TheConstants.{MOST_PLACES, MOST_TURNS};
ghost use Rattle.timer_wheel.specs.Delays.{places, count_of, is_known, opened, seen_parked, last_turn, at_next_turn, forgotten, IsDue, NoneIsDue};

use crate::limits::{LAST_TURN, MOST_PLACES, MOST_TURNS};
use crate::waiting::{DueDelay, Waiting};
use crate::wheel::Wheel;
use std::alloc::{AllocError, Global};
use std::marker::Model;

/// The number of turns, and the delays that were seen parked, one for each place at most.
///
/// The places are the numbers below the one that the list was opened with. Contracts see it as the
/// present turn, and for each place the delay that waits there.
#[derive(Debug, Drop)]
pub struct Delays {
    // The due turn of each delay.
    wheel: Wheel,
    // The delay of each place.
    waiting: Vec<Option<Waiting>>,
}

impl Model for Delays {
    ghost use Rattle.timer_wheel.specs.Delays.{DelayList};
    ghost use Rattle.timer_wheel.specs.Wheels.{IsOnWheel};

    ghost Value = { DelayList };

    ghost view = { λ delays. record { turn = delays.wheel.turn; waiting = delays.waiting.items } };

    ghost invariant = { λ delays. IsOnWheel delays.wheel delays.waiting.items };
}

impl Delays {
    /// An empty list at turn 0, for 1 to [`MOST_PLACES`] places. It fails only for want of memory,
    /// and no later call wants any.
    pub fn open(alloc: Global, places: u32) -> Result<Delays, AllocError>
        requires some { 1 ≤ places }
        requires few { places ≤ MOST_PLACES }
        ensures { IfOk result (λ delays. delays ≡ opened places) }
    {
        let wheel = Wheel::open(alloc, places)?;
        let waiting = vec![in alloc; None; places as usize]?;
        Ok(Delays { wheel, waiting })
    }

    /// The number of places: a place is a number below it.
    pub fn places(&self) -> u32
        ensures { result ≡ places self.now }
    {
        self.wheel.places()
    }

    /// The number of turns so far, which is at most 2^62.
    pub fn turn(&self) -> u64
        ensures turn { result ≡ self.now.turn }
        ensures bound { result ≤ last_turn }
    {
        self.wheel.turn()
    }

    /// Takes note that a delay of so many turns was read as parked at this place, at this
    /// generation. Where the list has it, it stays as it was first seen. Else it is first seen now,
    /// in place of the place's delay of another generation. The turns are at most [`MOST_TURNS`].
    /// True says that it is first seen now.
    pub fn saw_parked(&mut self, place: u32, generation: u32, turns: u32) -> bool
        requires place { place < places self.old }
        requires turns { turns ≤ MOST_TURNS }
        ensures answer { result ≡ not (is_known self.old place generation) }
        ensures seen { self.new ≡ seen_parked self.old place generation turns }
        ensures places { places self.new ≡ places self.old }
    {
        if self.knows(place, generation) {
            return false;
        }
        self.wheel.remove(place);
        self.wheel.add(place, turns);
        let since = self.wheel.turn();
        self.waiting[place as usize] = Some(Waiting {
            generation,
            since,
            turns,
        });
        true
    }

    // Whether the delay of this place was seen at this generation.
    fn knows(&self, place: u32, generation: u32) -> bool
        requires { place < places self.now }
        ensures { result ≡ is_known self.now place generation }
    {
        match self.waiting[place as usize] {
            Some(waiting) => waiting.generation == generation,
            None => false,
        }
    }

    /// Goes on to the next turn, which changes no delay. After turn 2^62 comes no other: the number
    /// stays.
    pub fn next_turn(&mut self)
        ensures { self.new ≡ at_next_turn self.old }
    {
        if self.wheel.turn() < LAST_TURN {
            self.wheel.advance();
        }
    }

    /// Takes out a delay that is due. `None` says that none is. Which of several is taken is left
    /// open.
    pub fn due(&mut self) -> Option<DueDelay>
        ensures some { IfSome result (λ due. IsDue self.old due.place due.generation) }
        ensures taken { IfSome result (λ due. self.new ≡ forgotten self.old due.place) }
        ensures none { IfNone result (NoneIsDue self.old) }
        ensures same { IfNone result (self.new ≡ self.old) }
        ensures count { OnSome result (count_of self.new + 1 ≡ count_of self.old) }
        ensures places { places self.new ≡ places self.old }
    {
        let place = self.wheel.due()?;
        let waiting = self.waiting[place as usize].unwrap();
        self.waiting[place as usize] = None;
        Some(DueDelay {
            place,
            generation: waiting.generation,
        })
    }

    /// Takes out the delay of this place, where there is one.
    pub fn forget(&mut self, place: u32)
        requires { place < places self.old }
        ensures forgotten { self.new ≡ forgotten self.old place }
        ensures places { places self.new ≡ places self.old }
    {
        self.wheel.remove(place);
        self.waiting[place as usize] = None;
    }
}
