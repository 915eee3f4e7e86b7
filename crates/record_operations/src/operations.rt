//! The seam.
ghost use Rattle.std.specs.Prelude.{IfNone, IsSome, MatchOption};
ghost use Rattle.std.specs.Thread.{IsSync};
ghost use Rattle.record_operations.specs.Moves.{KeepsRun, LeavesNone, LeavesRun, TurnsRun};
ghost use Rattle.record_operations.specs.Runs.{work_of, WantsMemory};

use crate::entering::enter;
use crate::requesting::ask_scope;
use crate::running::{OnTable, TableRun};
use crate::tickets::{is_free, put};
use exec_recv::Stepper;
use exec_value::{Completion, Data, Datum};
use record_loop::Operations;
use run_loop::Env;
use std::alloc::Global;
use std::sync::Wait;

impl<'a, T: Stepper, B: OnTable> Operations for TableRun<'a, T, B> {
    ghost state = { work_of };

    ghost WantsMemory = { WantsMemory };

    fn start<R: Wait + Sync>(
        &mut self,
        rt: &R,
        alloc: Global,
        number: u32,
        datum: Datum,
    ) -> Result<u32, Datum> {
        let ticket = self.next;
        if !is_free(&self.operations, ticket) {
            self.pause.lack_room(&self.looped);
            return Err(datum);
        }
        let env = Env::of_record(self.plan, Data::one(alloc, datum), number, self.requested);
        match enter(rt, alloc, self.table, self.stepper, &mut self.looped, env) {
            Ok(operation) => {
                self.pause.stir(&self.looped);
                put(&mut self.operations, ticket, operation);
                self.next = (ticket + 1) % self.operations.len();
                Ok(ticket as u32)
            }
            Err(back) => {
                self.pause.lack_room(&self.looped);
                Err(back.into_args().into_one())
            }
        }
    }

    fn turn<R: Wait + Sync>(&mut self, rt: &R, alloc: Global)
        requires sync { IsSync R.row }
        ensures turns { TurnsRun T.does self.old self.new }
    {
        self.go_round(rt, alloc);
        self.serve_spawned(rt, alloc);
    }

    fn collect<R: Wait + Sync>(&mut self, _rt: &R, ticket: u32) -> Option<Completion>
        requires sync { IsSync R.row }
        requires begun { IsSome ((work_of self.old).tickets ticket) }
        ensures leaves { MatchOption result (KeepsRun self.old self.new)
            (LeavesRun self.old self.new ticket) }
        ensures none { IfNone result (LeavesNone self.old self.new ticket) }
    {
        self.leave(ticket as usize)
    }

    fn request<R: Wait + Sync>(&mut self, rt: &R) {
        self.requested = true;
        self.pause.stir(&self.looped);
        let hand = &mut self.looped.hand;
        ask_scope(rt, self.plan, self.table, hand, self.stepper);
    }
}
