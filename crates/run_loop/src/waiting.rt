//! How one operation is run and waited for ([exec.sync.wait]).
ghost use Rattle.std.specs.Prelude.{◌≡◌};
ghost use Rattle.std.specs.Thread.{IsSync};
ghost use Rattle.table_steps.specs.Views.{IsSameHand};
ghost use Rattle.deck_relay.specs.SameDecks.{KeepsDeck};
ghost use Rattle.run_loop.specs.Loops.{IsReady, deck_of};
ghost use Rattle.node_walks.specs.Starts.{CanRun};
ghost use Rattle.node_walks.specs.Completes.{IsListed};
ghost use Rattle.run_loop.specs.Waits.{IsCollected, OnlyWaits, TurnsUntil, Waits};
ghost use Rattle.exec_recv.specs.Sites.{IsSite};

use crate::looped::Loop;
use exec_recv::{Env, Site, Stepper};
use node_walks::Collected;
use op_slot::Block;
use std::sync::Wait;

/// What waiting for one operation came to.
#[derive(Drop)]
pub enum Waited {
    /// The operation completed so.
    Completed(Collected),
    /// No block was free for it. Its environment comes back.
    NoBlock(Env),
}

impl Loop {
    // Turns until the operation in the block can be collected.
    fn turn_until<T: Stepper, R: Wait + Sync>(
        &mut self,
        site: &Site<R, T>,
        block: Block,
    ) -> Collected
        requires sync { IsSync R.row }
        requires ready { IsReady site.now self.old }
        requires site { IsSite site.now }
        requires listed { IsListed site.now block self.old.hand.me }
        ensures ready { IsReady site.now self.new }
        ensures same { IsSameHand self.old.hand self.new.hand }
        ensures collected { IsCollected site.now block self.old self.new result }
        ensures until { TurnsUntil T.does site.now block self.old self.new result }
        ensures deck { KeepsDeck (deck_of self.old) (deck_of self.new) }
    {
        for _ in site.rt.forever() {
            if let Some(collected) = self.collect(site.table, block, site.gate) {
                return collected;
            }
            let taken = self.turn(site);
            self.give_way(taken);
        }
        unreachable!()
    }

    /// Starts an operation in a free block, turns until it can be collected, and collects it
    /// ([exec.sync.wait]). NoBlock where no block was free: each was missed at its own step of this
    /// call. It does nothing else. What is promised holds if it returns.
    ///
    /// Step: those of `start`, of turns and of `collect`.
    /// Needs: as `start`.
    /// Afterwards: the loop is ready. Its operations are as before. What the operation completed
    /// with is want of memory, or allowed for the start that the environment shows, and is of its
    /// number; it saw a stop request only where the scope's stood. It stands in the tally, as an
    /// operation of this table and of its plan.
    pub fn sync_wait<T: Stepper, R: Wait + Sync>(&mut self, site: &Site<R, T>, env: Env) -> Waited
        requires sync { IsSync R.row }
        requires ready { IsReady site.now self.old }
        requires site { IsSite site.now }
        requires start { CanRun site.now env }
        ensures ready { IsReady site.now self.new }
        ensures same { IsSameHand self.old.hand self.new.hand }
        ensures waits { Waits site.now env self.old self.new result }
        ensures only { OnlyWaits T.does site.now env self.old self.new result }
        ensures deck { KeepsDeck (deck_of self.old) (deck_of self.new) }
    {
        match self.start(site, env) {
            Ok(block) => Waited::Completed(self.turn_until(site, block)),
            Err(env) => Waited::NoBlock(env),
        }
    }
}
