//! How the first child of an `ahead` runs as an operation of its own (P3149, `spawn_future`).
ghost use Rattle.std.specs.Prelude.{◌≡◌, ◌==◌};
ghost use Rattle.std.specs.Thread.{IsSync};
ghost use Rattle.plan_kinds.specs.Runnable.{IsRunnable};
ghost use Rattle.exec_recv.specs.Over.{IsOver};
ghost use Rattle.spawn_future.specs.Keeping.{IsKeeping};
ghost use Rattle.spawn_future.specs.Slots.{kept_in};
ghost use Rattle.record_operations.specs.Moves.{KeepsOperations, ServesAheads, WasTold, Clears};
ghost use Rattle.record_operations.specs.Spawned.{ServesFutures, ServesSpawned};

use crate::later_mail::LaterMail;
use crate::running::{OnTable, TableRun};
use exec_recv::{Item, Site, Stepper};
use op_slot::{Hand, OpTable};
use spawn_future::Futures;
use std::alloc::Global;
use std::sync::Wait;

// Serves the `ahead` nodes that are parked, and ends what was abandoned and is complete.
fn serve<T: Stepper, R: Wait + Sync>(
    rt: &R,
    alloc: Global,
    table: &OpTable<Item>,
    hand: &mut Hand<Item>,
    stepper: &T,
    futures: &mut Futures,
    posted: &mut LaterMail,
)
    requires sync { IsSync R.row }
    requires keeping { IsKeeping table.now futures.old hand.old }
    requires over { IsOver table.now (T.plan stepper.now) }
    requires kinds { IsRunnable (T.plan stepper.now) }
    ensures keeping { IsKeeping table.now futures.new hand.new }
    ensures serves { ServesSpawned table.now futures.old futures.new hand.old.me hand.new.me }
    ensures turned { ServesFutures table.now (T.plan stepper.now) futures.old futures.new
        hand.old hand.new }
{
    let _served = futures.turn(&Site::of(rt, alloc, table, stepper), hand, posted);
    let _ended = futures.sweep(table, hand, stepper);
}

impl<'a, T: Stepper, B: OnTable> TableRun<'a, T, B> {
    /// Serves each `ahead` that is parked, where the plan has any, and ends the futures that were
    /// abandoned and are complete. The loop is told of the nodes that this left ready.
    pub(crate) fn serve_spawned<R: Wait + Sync>(&mut self, rt: &R, alloc: Global)
        requires sync { IsSync R.row }
        ensures keeps { KeepsOperations self.old self.new }
        ensures serves { ServesAheads self.old self.new }
        ensures told { WasTold self.old self.new }
    {
        if !self.spawns {
            return;
        }
        serve(
            rt,
            alloc,
            self.table,
            &mut self.looped.hand,
            self.stepper,
            &mut self.futures,
            &mut self.posted,
        );
        self.posted.tell(rt, &mut self.looped);
    }

    // No future is kept.
    fn keeps_none(&self) -> bool
        ensures { result ≡ (kept_in self.now.futures == 0) }
    {
        self.futures.kept() == 0
    }

    /// Turns until no future is kept.
    pub(crate) fn clear_spawned<R: Wait + Sync>(&mut self, rt: &R, alloc: Global)
        requires sync { IsSync R.row }
        ensures clears { Clears self.old self.new }
        ensures none { kept_in self.new.futures ≡ 0 }
    {
        for _ in rt.forever() {
            if self.keeps_none() {
                return;
            }
            self.go_round(rt, alloc);
            self.serve_spawned(rt, alloc);
        }
        unreachable!()
    }
}
