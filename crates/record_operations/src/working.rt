//! What a run does with the operations that it has.
ghost use Rattle.std.specs.Prelude.{◌≡◌, ◌<◌, IfNone, MatchOption, is_none, length, None, slice_index_or};
ghost use Rattle.std.specs.Thread.{IsSync};
ghost use Rattle.record_operations.specs.Moves.{KeepsRun, LeavesRun, LeavesNone, MeetsTold, TakesTold, Clears};

use crate::rounds::go_once;
use crate::running::{OnTable, TableRun};
use crate::tickets::{block_of, is_free, take};
use count_scope::disassociate;
use exec_recv::Stepper;
use exec_value::Completion;
use std::alloc::Global;
use std::sync::Wait;

impl<'a, T: Stepper, B: OnTable> TableRun<'a, T, B> {
    /// Lets the operations go on by a round: takes the nodes of the names that the loop was told
    /// of, those that workers posted included, and after many rounds that took none looks at each
    /// node. Where it took none it gives way to workers, and sleeps where they wake it.
    pub(crate) fn go_round<R: Wait + Sync>(&mut self, rt: &R, alloc: Global)
        requires sync { IsSync R.row }
        ensures keeps { KeepsRun self.old self.new }
        ensures met { MeetsTold T.does self.old self.new }
        ensures served { TakesTold T.does self.old self.new }
    {
        let looks = self.pause.begin(rt, &self.looped);
        let taken = go_once(
            rt,
            alloc,
            self.table,
            self.stepper,
            &mut self.looped,
            &mut self.post,
            looks,
        );
        self.pause.end(&self.looped, taken);
    }

    /// What the operation of a ticket completed with, where it has one that is complete. None only
    /// where the word of its root that was read didn't say that it is ready in the loop. Its block
    /// is given back, and then its association is left: an association lasts as long as its work.
    pub(crate) fn leave(&mut self, ticket: usize) -> Option<Completion>
        requires within { ticket < length self.old.operations }
        ensures leaves { MatchOption result (KeepsRun self.old self.new)
            (LeavesRun self.old self.new ticket) }
        ensures none { IfNone result (LeavesNone self.old self.new ticket) }
    {
        let block = block_of(&self.operations, ticket)?;
        let Some(collected) = self.looped.collect(self.table, block, self.stepper) else {
            self.pause.wait_on(&self.looped);
            return None;
        };
        self.pause.stir(&self.looped);
        let left = take(&mut self.operations, ticket);
        disassociate(self.table, &mut self.looped.hand, left.into_association());
        Some(collected.completion)
    }

    // Whether a ticket is free.
    fn has_free(&self, ticket: usize) -> bool
        requires { ticket < length self.now.operations }
        ensures { result ≡ is_none (slice_index_or self.now.operations ticket None) }
    {
        is_free(&self.operations, ticket)
    }

    /// Turns until the operation of a ticket is collected, where it has one.
    pub(crate) fn clear<R: Wait + Sync>(&mut self, rt: &R, alloc: Global, ticket: usize)
        requires sync { IsSync R.row }
        requires within { ticket < length self.old.operations }
        ensures clears { Clears self.old self.new }
        ensures freed { slice_index_or self.new.operations ticket None ≡ None }
    {
        for _ in rt.forever() {
            if self.has_free(ticket) {
                return;
            }
            drop(self.leave(ticket));
            self.go_round(rt, alloc);
            self.serve_spawned(rt, alloc);
        }
        unreachable!()
    }
}
