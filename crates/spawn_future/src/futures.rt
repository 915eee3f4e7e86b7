//! The futures that hand 0 keeps.
ghost use Rattle.std.specs.Bool.{OnTrue, OnFalse};
ghost use Rattle.std.specs.Prelude.{◌≡◌, ◌≤◌, IfOk, IfSome, IfNone};
ghost use Rattle.spawn_future.specs.declared.limits.TheConstants.{MOST_FUTURES};
ghost use Rattle.spawn_future.specs.Keeping.{KeepsOn};
ghost use Rattle.spawn_future.specs.Opened.{IsOpened};
ghost use Rattle.spawn_future.specs.Polls.{Abandons, AbandonsNone};
ghost use Rattle.spawn_future.specs.Slots.{kept_in, AllTaken, IsFree, IsFoundAt, WaitsNowhere};

use crate::future::Future;
use crate::slots::{Found, discard, find, free_slot, free_slots, mark};
use life_rules::Name;
use std::alloc::{AllocError, Global};
use std::marker::Model;

/// The futures that hand 0 of a table keeps, each in a slot. They are seen as their slots. Its type
/// keeps no fact of the hand: each call that takes the table asks that the hand keeps them, and
/// leaves it so. It has no drop: `close` ends it, once none is kept.
pub struct Futures {
    pub(crate) slots: Vec<Option<Future>>,
    pub(crate) kept: u32,
}

impl Model for Futures {
    ghost use Rattle.std.specs.Prelude.{List, Option};
    ghost use Rattle.spawn_future.specs.declared.future.Future.{Future};
    ghost use Rattle.spawn_future.specs.Slots.{AreSlots};

    ghost Value = { List (Option Future) };

    ghost view = { λ s. s.slots.items };

    ghost invariant = { λ s. AreSlots s.slots.items s.kept };
}

impl Futures {
    /// Takes the room for so many futures, 1 to [`MOST_FUTURES`]. It fails only for want of memory,
    /// and no later call wants any but what a step of a node takes.
    pub fn open(alloc: Global, most: u32) -> Result<Futures, AllocError>
        requires some { 1 ≤ most }
        requires few { most ≤ MOST_FUTURES }
        ensures { IfOk result (IsOpened most) }
    {
        let slots = free_slots(alloc, most as usize)?;
        Ok(Futures { slots, kept: 0 })
    }

    /// How many futures are kept, abandoned ones among them.
    pub fn kept(&self) -> u32
        ensures count { result ≡ kept_in self.now }
        ensures few { result ≤ MOST_FUTURES }
    {
        self.kept
    }

    // A free slot. None only where each is taken.
    pub(crate) fn free(&self) -> Option<usize>
        ensures free { IfSome result (IsFree self.now) }
        ensures none { IfNone result (AllTaken self.now) }
    {
        free_slot(&self.slots)
    }

    // The slot of the future that the owner waits for. None exactly where it waits for none.
    pub(crate) fn waited(&self, owner: Name) -> Option<Found>
        ensures found { IfSome result (IsFoundAt owner self.now) }
        ensures none { IfNone result (WaitsNowhere owner self.now) }
    {
        find(&self.slots, owner)
    }

    /// Abandons the future for which the owner waits: its operation runs to its end, and `sweep`
    /// drops its completion. True exactly where the owner waited for one. It makes no step, and
    /// asks no stop of the operation.
    ///
    /// Afterwards: a hand that kept the futures keeps them still.
    pub fn abandon(&mut self, owner: Name) -> bool
        ensures abandoned { OnTrue result (Abandons owner self.old self.new) }
        ensures unknown { OnFalse result (AbandonsNone owner self.old self.new) }
        ensures keeps { KeepsOn self.old self.new }
    {
        match self.waited(owner) {
            Some(found) => {
                mark(&mut self.slots, found.slot);
                true
            }
            None => false,
        }
    }

    /// Gives back the memory, once no future is kept.
    pub fn close(self)
        requires { kept_in self ≡ 0 }
    {
        let Futures { slots, kept: _ } = self;
        discard(slots);
    }
}
