//! How an operation is started.
ghost use Rattle.std.specs.Prelude.{◌≡◌, IfOk, IfErr};
ghost use Rattle.std.specs.Thread.{IsSync};
ghost use Rattle.table_steps.specs.Views.{IsSameHand};
ghost use Rattle.deck_relay.specs.SameDecks.{KeepsDeck};
ghost use Rattle.run_loop.specs.Loops.{IsReady, KeepsCounts, KeepsDelays, deck_of};
ghost use Rattle.node_walks.specs.Starts.{CanRun};
ghost use Rattle.run_loop.specs.Starts.{StartsIn, WentOn, FindsNoBlock};
ghost use Rattle.exec_recv.specs.Sites.{IsSite};

use crate::looped::Loop;
use exec_recv::{Env, Site, Stepper};
use node_walks::begin_root;
use op_slot::Block;
use std::sync::Wait;

impl Loop {
    /// Starts an operation in a free block, and goes on with it until the hand is at rest. The
    /// environment comes back where no block was free: each was missed at its own step of this
    /// call.
    ///
    /// Step: those of `claim_from`, `put_home` and `begin`, and those of the steps of its nodes.
    /// Needs: the loop is ready. The table is over the stepper's plan, whose kinds match. The
    /// environment shows a start of the receiver node of that plan, with arguments of the kinds of
    /// the child that it names.
    /// Afterwards: the loop is ready. The block's root began with the start that the environment
    /// shows, and the stepper stepped it. The search for the block began from the one that was
    /// collected last, and the hand did nothing else. The loop took note of each node that the
    /// steps left ready. The hand has noted that start, and had noted none of this root before.
    #[inline(always)]
    pub fn start<T: Stepper, R: Wait + Sync>(
        &mut self,
        site: &Site<R, T>,
        env: Env,
    ) -> Result<Block, Env>
        requires sync { IsSync R.row }
        requires ready { IsReady site.now self.old }
        requires site { IsSite site.now }
        requires start { CanRun site.now env }
        ensures ready { IsReady site.now self.new }
        ensures same { IsSameHand self.old.hand self.new.hand }
        ensures counts { KeepsCounts self.old self.new }
        ensures delays { KeepsDelays self.old self.new }
        ensures started { IfOk result (λ b. StartsIn site.now b env self.old self.new) }
        ensures first { IfOk result
            (λ b. WentOn T.does site.now b env self.old self.new) }
        ensures back { IfErr result (λ back. back ≡ env) }
        ensures none { IfErr result (λ _. FindsNoBlock site.now self.old self.new) }
        ensures deck { KeepsDeck (deck_of self.old) (deck_of self.new) }
    {
        begin_root(site, &mut self.hand, self.next, env, &mut self.names)
    }
}
