//! A wheel of places that are due at turns.
ghost use Rattle.std.specs.Prelude.{◌≡◌, ◌+◌, ◌<◌, ◌≤◌, not, IfOk, IfSome, IfNone, OnSome};
ghost use Rattle.std.specs.Bool.{OnTrue, OnFalse};
ghost use Rattle.timer_wheel.specs.Pairs.{places, is_there, count_of, opened, added, removed, advanced, IsDue, NoneIsDue};
ghost use Rattle.timer_wheel.specs.declared.limits.TheConstants.{MOST_PLACES, MOST_TURNS, LAST_TURN};

use crate::buckets::{READY, bucket_of};
use crate::limits::{LAST_TURN, MOST_PLACES, MOST_TURNS};
use crate::lists::Lists;
use crate::settling::settle;
use std::alloc::{AllocError, Global};
use std::marker::Model;

/// A present turn, and pairs of a place and the turn at which it is due. No place has two.
///
/// The places are the numbers below the one that the wheel was opened with. Contracts see a wheel
/// as its turn and its pairs.
#[derive(Debug, Drop)]
pub struct Wheel {
    turn: u64,
    // The due turn of each place that has a pair.
    due_turns: Vec<Option<u64>>,
    // The buckets, in which each such place stands once.
    lists: Lists,
}

impl Model for Wheel {
    ghost use Rattle.timer_wheel.specs.Pairs.{Pairs};
    ghost use Rattle.timer_wheel.specs.Settling.{IsWheel};

    ghost Value = { Pairs };

    ghost view = { λ wheel. record { turn = wheel.turn; due_turns = wheel.due_turns.items } };

    ghost invariant = { λ wheel. IsWheel wheel.turn wheel.due_turns.items wheel.lists };
}

impl Wheel {
    /// A wheel at turn 0 without pairs, for 1 to [`MOST_PLACES`] places. It fails only for want of
    /// memory, and no later call wants any.
    pub fn open(alloc: Global, places: u32) -> Result<Wheel, AllocError>
        requires some { 1 ≤ places }
        requires few { places ≤ MOST_PLACES }
        ensures { IfOk result (λ wheel. wheel ≡ opened places) }
    {
        let due_turns = vec![in alloc; None; places as usize]?;
        let lists = Lists::open(alloc, places)?;
        Ok(Wheel {
            turn: 0,
            due_turns,
            lists,
        })
    }

    /// The number of places: a place is a number below it.
    pub fn places(&self) -> u32
        ensures { result ≡ places self.now }
    {
        self.due_turns.len() as u32
    }

    /// The present turn, which is at most [`LAST_TURN`].
    pub fn turn(&self) -> u64
        ensures turn { result ≡ self.now.turn }
        ensures bound { result ≤ LAST_TURN }
    {
        self.turn
    }

    /// Adds the pair of this place and the turn that comes in so many turns. False says that the
    /// place has a pair already, which stays. The turns are at most [`MOST_TURNS`].
    pub fn add(&mut self, place: u32, turns: u32) -> bool
        requires place { place < places self.old }
        requires turns { turns ≤ MOST_TURNS }
        ensures answer { result ≡ not (is_there self.old place) }
        ensures added { OnTrue result (self.new ≡ added self.old place turns) }
        ensures refused { OnFalse result (self.new ≡ self.old) }
        ensures places { places self.new ≡ places self.old }
    {
        if self.due_turns[place as usize].is_some() {
            return false;
        }
        let due = self.turn + u64::from(turns);
        self.due_turns[place as usize] = Some(due);
        self.lists.push(place, bucket_of(self.turn, due));
        true
    }

    /// Removes the pair of this place. False says that there is none; a number that is no place has
    /// none.
    pub fn remove(&mut self, place: u32) -> bool
        ensures answer { result ≡ is_there self.old place }
        ensures removed { OnTrue result (self.new ≡ removed self.old place) }
        ensures absent { OnFalse result (self.new ≡ self.old) }
        ensures places { places self.new ≡ places self.old }
    {
        if !self.lists.remove(place) {
            return false;
        }
        self.due_turns[place as usize] = None;
        true
    }

    /// Goes on to the next turn, which changes no pair. The turn is before [`LAST_TURN`].
    pub fn advance(&mut self)
        requires { self.old.turn < LAST_TURN }
        ensures { self.new ≡ advanced self.old }
    {
        let coming = bucket_of(self.turn, self.turn + 1);
        self.turn += 1;
        settle(&mut self.lists, &self.due_turns, self.turn, coming);
    }

    /// Takes out a pair whose turn has come, and answers its place. `None` says that no pair's turn
    /// has come. Which of several pairs is taken is left open.
    pub fn due(&mut self) -> Option<u32>
        ensures some { IfSome result (IsDue self.old) }
        ensures taken { IfSome result (λ place. self.new ≡ removed self.old place) }
        ensures none { IfNone result (NoneIsDue self.old) }
        ensures same { IfNone result (self.new ≡ self.old) }
        ensures count { OnSome result (count_of self.new + 1 ≡ count_of self.old) }
        ensures places { places self.new ≡ places self.old }
    {
        let place = self.lists.pop(READY)?;
        self.due_turns[place as usize] = None;
        Some(place)
    }
}
