//! How a future is polled, and ended.
ghost use Rattle.std.specs.Prelude.{◌≡◌, ◌<◌, length, IfSome, IfNone};
ghost use Rattle.table_steps.specs.Views.{IsSameHand};
ghost use Rattle.exec_recv.specs.Over.{IsOver};
ghost use Rattle.spawn_future.specs.Keeping.{IsKeeping};
ghost use Rattle.spawn_future.specs.Polls.{EndsSlotAt, IsIncomplete, Polls};
ghost use Rattle.spawn_future.specs.Slots.{HasBlock};

use crate::futures::Futures;
use crate::slots::take;
use count_scope::disassociate;
use exec_recv::{Gate, Item};
use exec_value::Completion;
use life_rules::Name;
use node_walks::{Collected, Ended, end_root};
use op_slot::{Block, Hand, OpTable};

/// What an owner learns of its future.
#[derive(Drop)]
pub enum Polled {
    /// It completed so, and this says whether it saw a stop request on the scope's source.
    Ready(Completion, bool),
    /// It isn't complete.
    Waiting,
    /// The owner has none, or abandoned it.
    Unknown,
}

impl Futures {
    /// What the slot's future, which is in this block, completed with. Its block is given back, and
    /// then its association is left: an association lasts as long as its work. None only where the
    /// word of its root that was read didn't say that it is ready in the loop.
    pub(crate) fn end<G: Gate>(
        &mut self,
        table: &OpTable<Item>,
        hand: &mut Hand<Item>,
        slot: usize,
        block: Block,
        gate: &G,
    ) -> Option<Ended>
        requires keeping { IsKeeping table.now self.old hand.old }
        requires over { IsOver table.now table.now.frame.over.value }
        requires within { slot < length self.old }
        requires has { HasBlock self.old slot block }
        ensures keeping { IsKeeping table.now self.new hand.new }
        ensures same { IsSameHand hand.old hand.new }
        ensures none { IfNone result
            (IsIncomplete table.now block self.old self.new hand.old.me hand.new.me) }
        ensures ended { IfSome result
            (EndsSlotAt table.now slot block self.old self.new hand.old.me hand.new.me) }
    {
        let ended = end_root(table, hand, block, gate)?;
        let future = take(&mut self.slots, slot);
        self.kept -= 1;
        disassociate(table, hand, future.into_association());
        Some(ended)
    }

    /// What the owner's future completed with, where it is complete. Waiting only where the word of
    /// its receiver node that was read didn't say that it is ready in the loop. Unknown exactly
    /// where no future that isn't abandoned is kept for the owner.
    ///
    /// Step: that of `take`, and where it took the root those of `take_home`, `finish` and
    /// `release`, before which the gate is passed, and then that of `disassociate`. It wants no
    /// memory.
    /// Needs: hand 0 keeps these futures, and is at rest.
    /// Afterwards: the same of the hand. What is Ready is want of memory, or allowed for the child
    /// that the noted start of the root names, under that start: where the request stood before the
    /// start, where one was seen, or where there was none. Where it saw one, the hand made the
    /// scope's request. Its block was given back, and then its association was left.
    pub fn poll<G: Gate>(
        &mut self,
        table: &OpTable<Item>,
        hand: &mut Hand<Item>,
        owner: Name,
        gate: &G,
    ) -> Polled
        requires keeping { IsKeeping table.now self.old hand.old }
        requires over { IsOver table.now table.now.frame.over.value }
        ensures keeping { IsKeeping table.now self.new hand.new }
        ensures same { IsSameHand hand.old hand.new }
        ensures polled { Polls table.now owner self.old self.new hand.old.me hand.new.me result }
    {
        let Some(found) = self.waited(owner) else {
            return Polled::Unknown;
        };
        match self.end(table, hand, found.slot, found.block, gate) {
            Some(ended) => {
                let Ended { env, collected } = ended;
                drop(env);
                let Collected {
                    number: _,
                    completion,
                    saw,
                } = collected;
                Polled::Ready(completion, saw)
            }
            None => Polled::Waiting,
        }
    }
}
