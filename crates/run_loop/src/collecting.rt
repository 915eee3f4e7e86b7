//! How an operation is collected.
ghost use Rattle.std.specs.Prelude.{IfSome, IfNone};
ghost use Rattle.table_steps.specs.Views.{IsSameHand};
ghost use Rattle.deck_relay.specs.SameDecks.{KeepsDeck};
ghost use Rattle.exec_recv.specs.Over.{IsOver};
ghost use Rattle.run_loop.specs.Loops.{IsReady, deck_of};
ghost use Rattle.node_walks.specs.Completes.{IsListed};
ghost use Rattle.run_loop.specs.Collects.{Collects, CollectsNothing};

use crate::looped::Loop;
use exec_recv::{Gate, Item};
use node_walks::{Collected, Ended, end_root};
use op_slot::{Block, OpTable};

impl Loop {
    /// Collects the operation in this block, and gives the block back. None only where the word of
    /// the block's root that was read didn't say that it is ready in the loop.
    ///
    /// Step: that of `take`, and where it took the root those of `take_home`, `finish` and
    /// `release`, before which the gate is passed. It wants no memory.
    /// Needs: the loop is ready. The operation is one that it started and hasn't collected: its
    /// hand has noted the start of the block's root.
    /// Afterwards: the loop is ready, and has the operation no more. What it completed with is want
    /// of memory, or allowed for that start, and is of its number. It stands in the tally, as an
    /// operation of this table and of its plan.
    #[inline(always)]
    pub fn collect<G: Gate>(
        &mut self,
        table: &OpTable<Item>,
        block: Block,
        gate: &G,
    ) -> Option<Collected>
        requires ready { IsReady table.now self.old }
        requires over { IsOver table.now table.now.frame.over.value }
        requires listed { IsListed table.now block self.old.hand.me }
        ensures ready { IsReady table.now self.new }
        ensures same { IsSameHand self.old.hand self.new.hand }
        ensures none { IfNone result (CollectsNothing table.now block self.old self.new) }
        ensures collected { IfSome result (Collects table.now block self.old self.new) }
        ensures deck { KeepsDeck (deck_of self.old) (deck_of self.new) }
    {
        let Ended { env, collected } = end_root(table, &mut self.hand, block, gate)?;
        self.tally.raise(&env, table, &collected);
        drop(env);
        self.next = block.index;
        Some(collected)
    }
}
