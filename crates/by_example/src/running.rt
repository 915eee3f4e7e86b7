//! One operation on a loop, from its number to its completion.
ghost use Rattle.std.specs.Prelude.{◌≡◌, IfOk, IfErr};
ghost use Rattle.std.specs.Thread.{IsSync};
ghost use Rattle.whole_run.specs.Opened.{IsFreshHand};
ghost use Rattle.run_workers.specs.Crews.{IsSpare};
ghost use Rattle.by_example.specs.OneHand.{IsForOne};
ghost use Rattle.by_example.specs.Answers.{IsAddCause, IsOfInts, MayComplete, answer_of};

use crate::fault::AddFault;
use exec_recv::{Env, Item, Site, Stepper};
use exec_value::{Completion, Data, Datum};
use op_table::{Hand, OpTable};
use plan_shape::Plan;
use run_loop::{Loop, Waited};
use std::alloc::Global;
use std::sync::Wait;

/// What an operation completed with, where it ran, and the hand.
#[derive(Drop)]
pub(crate) struct Answer {
    pub(crate) completion: Result<Completion, AddFault>,
    pub(crate) hand: Hand<Item>,
}

// What came of waiting for an operation.
fn answer_of(waited: Waited) -> Result<Completion, AddFault>
    ensures { result ≡ answer_of waited }
{
    match waited {
        Waited::Completed(found) => Ok(found.completion),
        Waited::NoBlock(_) => Err(AddFault::NoBlock),
    }
}

/// Runs the plan's operation for this number ([exec.sync.wait]). The hand comes back in any case.
/// `NoBlock` only where the hand missed the one block at a step of this call.
pub(crate) fn run_number<T: Stepper, R: Wait + Sync>(
    rt: &R,
    alloc: Global,
    plan: &Plan,
    stepper: &T,
    table: &OpTable<Item>,
    hand: Hand<Item>,
    number: i64,
) -> Answer
    requires sync { IsSync R.row }
    requires plan { IsOfInts plan.now }
    requires stepper { T.plan stepper.now ≡ plan.now }
    requires table { IsForOne plan.now table.now }
    requires hand { IsFreshHand table.now hand }
    ensures completion { IfOk result.completion (MayComplete plan.now number) }
    ensures fault { IfErr result.completion (IsAddCause table.now hand result.hand) }
    ensures hand { IsSpare table.now result.hand }
{
    let mut looped = match Loop::open(alloc, plan, table, hand) {
        Ok(looped) => looped,
        Err(hand) => {
            return Answer {
                completion: Err(AddFault::NoMemory),
                hand,
            };
        }
    };
    let datum = Data::one(alloc, Datum::Int(number));
    let env = Env::of_record(plan, datum, 1, false);
    let waited = looped.sync_wait(&Site::of(rt, alloc, table, stepper), env);
    Answer {
        completion: answer_of(waited),
        hand: looped.into_hand(),
    }
}
