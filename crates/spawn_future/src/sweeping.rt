//! How abandoned futures are ended.
ghost use Rattle.std.specs.Bool.{OnTrue, OnFalse};
ghost use Rattle.std.specs.Prelude.{◌≡◌, ◌<◌, ◌≤◌, length, None, slice_index_or};
ghost use Rattle.table_steps.specs.Views.{IsSameHand};
ghost use Rattle.exec_recv.specs.Over.{IsOver};
ghost use Rattle.spawn_future.specs.declared.limits.TheConstants.{MOST_FUTURES};
ghost use Rattle.spawn_future.specs.Keeping.{IsKeeping};
ghost use Rattle.spawn_future.specs.Slots.{abandoned_block};
ghost use Rattle.spawn_future.specs.Sweeps.{EndsSlot, LeavesSlot, Sweeps, SweepsFirst};

use crate::futures::Futures;
use crate::slots::abandoned_in;
use exec_recv::{Gate, Item};
use op_slot::{Block, Hand, OpTable};

impl Futures {
    // The block of a slot's future, where that is abandoned.
    fn abandoned_at(&self, slot: usize) -> Option<Block>
        requires { slot < length self.now }
        ensures { result ≡ abandoned_block (slice_index_or self.now slot None) }
    {
        abandoned_in(&self.slots, slot)
    }

    // So many slots there are.
    fn most(&self) -> usize
        ensures all { result ≡ length self.now }
        ensures few { result ≤ MOST_FUTURES }
    {
        self.slots.len()
    }

    // Ends the slot's future, where that is abandoned and complete.
    fn sweep_slot<G: Gate>(
        &mut self,
        table: &OpTable<Item>,
        hand: &mut Hand<Item>,
        slot: usize,
        gate: &G,
    ) -> bool
        requires keeping { IsKeeping table.now self.old hand.old }
        requires over { IsOver table.now table.now.frame.over.value }
        requires within { slot < length self.old }
        ensures keeping { IsKeeping table.now self.new hand.new }
        ensures same { IsSameHand hand.old hand.new }
        ensures ended { OnTrue result
            (EndsSlot table.now slot self.old self.new hand.old.me hand.new.me) }
        ensures left { OnFalse result
            (LeavesSlot table.now slot self.old self.new hand.old.me hand.new.me) }
    {
        let Some(block) = self.abandoned_at(slot) else {
            return false;
        };
        match self.end(table, hand, slot, block, gate) {
            Some(ended) => {
                drop(ended);
                true
            }
            None => false,
        }
    }

    /// Ends each abandoned future whose receiver node it reads as ready in the loop, drops its
    /// completion, and answers how many it ended. Each abandoned future that is kept afterwards was
    /// read as not ready at a step of this call.
    ///
    /// Step: for each abandoned future those of `poll`. It wants no memory.
    /// Needs: hand 0 keeps these futures, and is at rest.
    /// Afterwards: the same of the hand. Futures that aren't abandoned are kept. For each that was
    /// ended the block was given back, and then the association left; no other word was moved.
    /// Notes of all other blocks are as they were.
    pub fn sweep<G: Gate>(&mut self, table: &OpTable<Item>, hand: &mut Hand<Item>, gate: &G) -> u32
        requires keeping { IsKeeping table.now self.old hand.old }
        requires over { IsOver table.now table.now.frame.over.value }
        ensures keeping { IsKeeping table.now self.new hand.new }
        ensures same { IsSameHand hand.old hand.new }
        ensures swept { Sweeps table.now self.old self.new hand.old.me hand.new.me result }
        ensures each { SweepsFirst table.now (length self.old) self.old self.new
            hand.old.me hand.new.me }
    {
        let mut ended = 0;
        for slot in 0..self.most() {
            if self.sweep_slot(table, hand, slot, gate) {
                ended += 1;
            }
        }
        ended
    }
}
