//! How a run ends.
ghost use Rattle.std.specs.Prelude.{◌+◌};
ghost use Rattle.std.specs.Thread.{IsSync};
ghost use Rattle.deck_relay.specs.Desks.{KeepsOwn};
ghost use Rattle.record_operations.specs.Ends.{IsEnded};
ghost use Rattle.table_steps.specs.Views.{knows};
ghost use Rattle.record_operations.specs.Runs.{begun_by};
ghost use Rattle.record_operations.specs.Worked.{HasWorked};

use crate::joining::join;
use crate::own::{Own, desk_of};
use crate::running::{OnTable, TableRun};
use crate::tickets::discard;
use exec_recv::Stepper;
use std::alloc::Global;
use std::sync::Wait;

impl<'a, T: Stepper, B: OnTable> TableRun<'a, T, B> {
    /// Ends the run: turns until each operation that is left is collected and no future is kept,
    /// closes and joins the scope (P3149, [exec.counting.scopes]), wakes the workers, which end
    /// then, and gives back what hand 0 has. What is promised holds if it returns.
    ///
    /// Afterwards: the hand is of the run's table, has nothing, and gave back as many blocks as it
    /// claimed: beyond those from before the run one for each operation that the run began, and one
    /// for each first child of an `ahead` that was spawned. One of its steps left the scope joined.
    /// So the table may be closed, once the other hands have come back. The desk is the one with
    /// which the run was opened.
    pub fn end<R: Wait + Sync>(self, rt: &R, alloc: Global) -> Own
        requires sync { IsSync R.row }
        ensures ended { IsEnded B.is result.hand }
        ensures worked { HasWorked self.entry.plan (B.claimed + begun_by self.entry)
            (knows result.hand).claimed }
        ensures desk { KeepsOwn B.desk result.desk }
    {
        let mut run = self;
        for ticket in 0..run.operations.len() {
            run.clear(rt, alloc, ticket);
        }
        run.clear_spawned(rt, alloc);
        let TableRun {
            table,
            plan: _,
            stepper,
            looped,
            operations,
            next: _,
            requested: _,
            pause: _,
            spawns: _,
            futures,
            post,
            posted: _,
            on: _,
        } = run;
        discard(operations);
        futures.close();
        let mut last = looped;
        join(rt, alloc, table, stepper, &mut last);
        last.wake_all();
        let (hand, deck) = last.into_parts();
        Own {
            hand,
            desk: desk_of(deck, post),
        }
    }
}
