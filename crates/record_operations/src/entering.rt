//! How an operation is started in the scope.
ghost use Rattle.std.specs.Prelude.{◌≡◌, IfOk, IfErr};
ghost use Rattle.std.specs.Thread.{IsSync};
ghost use Rattle.deck_relay.specs.SameDecks.{KeepsDeck};
ghost use Rattle.plan_kinds.specs.Runnable.{IsRunnable};
ghost use Rattle.table_steps.specs.Views.{IsSameHand, knows};
ghost use Rattle.table_steps.specs.ScopeEntries.{MayEnter};
ghost use Rattle.exec_recv.specs.Over.{IsOver};
ghost use Rattle.run_loop.specs.Loops.{IsReady, KeepsCounts, deck_of};
ghost use Rattle.node_walks.specs.Starts.{CanRun};
ghost use Rattle.run_loop.specs.Starts.{StartsIn, FindsNoBlock};
ghost use Rattle.record_operations.specs.Calls.{LeavesSame, EntersOperation};

use crate::tickets::Operation;
use count_scope::{associate, disassociate};
use exec_recv::{Item, Site, Stepper};
use op_slot::{Block, OpTable};
use run_loop::{Env, Loop};
use std::alloc::Global;
use std::sync::Wait;

// Starts an operation of this table.
#[inline(always)]
fn start<T: Stepper, R: Wait + Sync>(
    rt: &R,
    alloc: Global,
    table: &OpTable<Item>,
    stepper: &T,
    looped: &mut Loop,
    env: Env,
) -> Result<Block, Env>
    requires sync { IsSync R.row }
    requires ready { IsReady table.now looped.old }
    requires over { IsOver table.now (T.plan stepper.now) }
    requires kinds { IsRunnable (T.plan stepper.now) }
    requires start { CanRun table.now env }
    ensures ready { IsReady table.now looped.new }
    ensures same { IsSameHand looped.old.hand looped.new.hand }
    ensures counts { KeepsCounts looped.old looped.new }
    ensures started { IfOk result (λ b. StartsIn table.now b env looped.old looped.new) }
    ensures back { IfErr result (λ back. back ≡ env) }
    ensures none { IfErr result (λ _. FindsNoBlock table.now looped.old looped.new) }
    ensures deck { KeepsDeck (deck_of looped.old) (deck_of looped.new) }
{
    looped.start(&Site::of(rt, alloc, table, stepper), env)
}

/// Starts an operation with an association of the scope (P3149, `spawn`). The environment comes
/// back where the scope takes no association, or no block is free.
#[inline(always)]
pub(crate) fn enter<T: Stepper, R: Wait + Sync>(
    rt: &R,
    alloc: Global,
    table: &OpTable<Item>,
    stepper: &T,
    looped: &mut Loop,
    env: Env,
) -> Result<Operation, Env>
    requires sync { IsSync R.row }
    requires ready { IsReady table.now looped.old }
    requires settled { MayEnter (knows looped.old.hand) }
    requires over { IsOver table.now (T.plan stepper.now) }
    requires kinds { IsRunnable (T.plan stepper.now) }
    requires start { CanRun table.now env }
    ensures ready { IsReady table.now looped.new }
    ensures counts { KeepsCounts looped.old looped.new }
    ensures deck { KeepsDeck (deck_of looped.old) (deck_of looped.new) }
    ensures entered { IfOk result (λ o.
        EntersOperation table.now o env looped.old.hand.me looped.new.hand.me) }
    ensures back { IfErr result (λ back. back ≡ env) }
    ensures same { IfErr result (λ _. LeavesSame looped.old.hand.me looped.new.hand.me) }
{
    let Ok(association) = associate(table, &mut looped.hand) else {
        return Err(env);
    };
    match start(rt, alloc, table, stepper, looped, env) {
        Ok(block) => Ok(Operation { block, association }),
        Err(back) => {
            disassociate(table, &mut looped.hand, association);
            Err(back)
        }
    }
}
