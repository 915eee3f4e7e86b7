//! How the scope is closed and joined.
ghost use Rattle.std.specs.Thread.{IsSync};
ghost use Rattle.deck_relay.specs.SameDecks.{KeepsDeck};
ghost use Rattle.plan_kinds.specs.Runnable.{IsRunnable};
ghost use Rattle.table_steps.specs.Views.{knows};
ghost use Rattle.exec_recv.specs.Over.{IsOver};
ghost use Rattle.run_loop.specs.Loops.{IsReady, deck_of};
ghost use Rattle.record_operations.specs.Calls.{LeavesSame};
ghost use Rattle.record_operations.specs.Ends.{HasJoined};

use crate::rounds::take_all;
use count_scope::{JoinStart, close, is_joined, start_join};
use exec_recv::{Item, Stepper};
use op_slot::OpTable;
use run_loop::Loop;
use std::alloc::Global;
use std::sync::Wait;

// Turns until the scope is joined.
fn wait_joined<T: Stepper, R: Wait + Sync>(
    rt: &R,
    alloc: Global,
    table: &OpTable<Item>,
    stepper: &T,
    looped: &mut Loop,
)
    requires sync { IsSync R.row }
    requires ready { IsReady table.now looped.old }
    requires over { IsOver table.now (T.plan stepper.now) }
    requires kinds { IsRunnable (T.plan stepper.now) }
    ensures ready { IsReady table.now looped.new }
    ensures same { LeavesSame looped.old.hand.me looped.new.hand.me }
    ensures joined { HasJoined (knows looped.new.hand) }
    ensures deck { KeepsDeck (deck_of looped.old) (deck_of looped.new) }
{
    for _ in rt.forever() {
        if is_joined(table, &mut looped.hand) {
            return;
        }
        let taken = take_all(rt, alloc, table, stepper, looped, true);
        looped.give_way(taken);
    }
    unreachable!()
}

/// Closes the scope and joins it (P3149, [exec.counting.scopes]). Where associations are left, it
/// turns until the last of them seals the scope.
pub(crate) fn join<T: Stepper, R: Wait + Sync>(
    rt: &R,
    alloc: Global,
    table: &OpTable<Item>,
    stepper: &T,
    looped: &mut Loop,
)
    requires sync { IsSync R.row }
    requires ready { IsReady table.now looped.old }
    requires over { IsOver table.now (T.plan stepper.now) }
    requires kinds { IsRunnable (T.plan stepper.now) }
    ensures ready { IsReady table.now looped.new }
    ensures same { LeavesSame looped.old.hand.me looped.new.hand.me }
    ensures joined { HasJoined (knows looped.new.hand) }
    ensures deck { KeepsDeck (deck_of looped.old) (deck_of looped.new) }
{
    close(table, &mut looped.hand);
    match start_join(table, &mut looped.hand) {
        JoinStart::Joined => {}
        JoinStart::Waiting => wait_joined(rt, alloc, table, stepper, looped),
    }
}
