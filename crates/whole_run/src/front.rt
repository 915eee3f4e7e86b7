//! The work of hand 0 on the records of a source, from the hand that comes to the hand that it
//! gives back.
//!
//! Between the opening of a table and its closing no call returns early: where there is no memory
//! for the run, or none for the loop over its records, the hand comes back all the same, and the
//! scope is joined, for which workers wait. The run helps the pool where no worker serves it, and
//! beside workers where the crew says so.
ghost use Rattle.std.specs.Prelude.{◌≡◌};

use crate::working::{Came, Tabled, give_up};
use exec_io::Sink;
use exec_recv::{Item, Stepper};
use op_table::Hand;
use record_loop::{RecordSource, run_records};
use record_operations::{OnTable, Own, TableRun};
use run_workers::{Desk, Front};
use std::alloc::Global;
use std::marker::PhantomData;
use std::sync::Wait;

/// What the work of a run over a source's records has beside its hand: of the caller's (`'a`) the
/// records, the sink and the plan, and of the run's own (`'b`) the rest. `B` tells which table
/// and desk they are. No hand, loop or list is in it, and no struct with facts of its own:
/// what was written behind its references would be known no more.
#[derive(Drop)]
pub struct LinesFront<'a, 'b, B: OnTable, T: Stepper, S: RecordSource, K: Sink> {
    pub(crate) records: &'a mut S,
    pub(crate) out: &'a mut K,
    pub(crate) came: &'b mut Came,
    pub(crate) on: Tabled<'a, 'b, T>,
    pub(crate) brand: PhantomData<B>,
}

// Whether hand 0 takes what is ready in the pool: it is alone, or it helps, and has a deck in which
// it finds the names.
fn takes_pool(alone: bool, helps: bool, desk: &Option<Desk>) -> bool {
    alone || helps && desk.is_some()
}

impl<'a, 'b, B: OnTable, T: Stepper, S: RecordSource, K: Sink> Front
    for LinesFront<'a, 'b, B, T, S, K> {
    ghost use Rattle.whole_run.specs.Fronts.{MayBeginOn, LeavesLines};
    ghost use Rattle.whole_run.specs.Owns.{IsMarkedBy};

    ghost needs = { λ front hand desk.
        MayBeginOn front.on.table.now front.on.plan.now front.on.window
        (T.plan front.on.stepper.now) hand
        × IsMarkedBy B.is B.claimed B.desk front.on.table.now desk };

    ghost leaves = { LeavesLines S.told S.reads K.told };

    fn work<R: Wait + Sync>(
        &mut self,
        rt: &R,
        alloc: Global,
        hand: Hand<Item>,
        desk: Option<Desk>,
        helps: bool,
    ) -> (Hand<Item>, Option<Desk>) {
        let plan = self.on.plan;
        let table = self.on.table;
        let stepper = self.on.stepper;
        let window = self.on.window;
        let form = self.on.form;
        let takes = takes_pool(helps, self.on.helps, &desk);
        let own = Own { hand, desk };
        let opened: Result<TableRun<'_, T, B>, Own> = TableRun::open(
            alloc, plan, table, stepper, own, window,
        );
        match opened {
            Ok(mut run) => {
                run.help_pool(takes);
                let settings = *plan.settings();
                let answer = run_records(
                    rt,
                    alloc,
                    settings,
                    window,
                    form,
                    &mut run,
                    self.records,
                    self.out,
                );
                let tally = run.tally();
                *self.came = Came { answer, tally };
                let Own { hand, desk } = run.end(rt, alloc);
                (hand, desk)
            }
            Err(back) => {
                *self.came = Came::none();
                let Own { hand, desk } = give_up::<B, R>(rt, table, back);
                (hand, desk)
            }
        }
    }
}

impl<'a, 'b, B: OnTable, T: Stepper, S: RecordSource, K: Sink> LinesFront<'a, 'b, B, T, S, K> {
    /// Ends the front: what is behind its references stays.
    pub(crate) fn clear(self)
        ensures source { self.exit.0.now ≡ self.entry.records.now }
        ensures sink { self.exit.1.0.now ≡ self.entry.out.now }
        ensures came { self.exit.1.1.0.now ≡ self.entry.came.now }
    {
        let Self {
            records: _,
            out: _,
            came: _,
            on: _,
            brand: _,
        } = self;
    }
}
