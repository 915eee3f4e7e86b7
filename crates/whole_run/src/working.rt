//! What a run works with, and what it comes to.
ghost use Rattle.std.specs.Prelude.{◌≡◌, IsErr};
ghost use Rattle.deck_relay.specs.Desks.{KeepsOwn};
ghost use Rattle.run_workers.specs.Crews.{IsSpare};
ghost use Rattle.record_operations.specs.Ends.{IsEnded};

use crate::joining::join_idle;
use exec_recv::{Item, Stepper};
use op_table::OpTable;
use plan_shape::Plan;
use record_loop::{Ending, Form};
use record_operations::{OnTable, Own, Tally};
use std::alloc::AllocError;
use std::sync::Wait;

/// What a run works with beside its hand: a plan, what steps its nodes, the table on which they
/// run, how many records are worked on at once, the form in which outcomes are written, and whether
/// hand 0 helps the workers.
#[derive(Drop)]
pub(crate) struct Tabled<'a, 'b, T: Stepper> {
    pub(crate) plan: &'a Plan,
    pub(crate) stepper: &'b T,
    pub(crate) table: &'b OpTable<Item>,
    pub(crate) window: usize,
    pub(crate) form: Form,
    pub(crate) helps: bool,
}

/// What a run came to: how it ended, and which operations it collected.
#[derive(Drop)]
pub struct Came {
    pub(crate) answer: Result<Ending, AllocError>,
    pub(crate) tally: Tally,
}

impl Came {
    /// Nothing, so far: as where there is no memory for a run.
    pub(crate) fn none() -> Came
        ensures { IsErr result.answer }
    {
        Came {
            answer: Err(AllocError),
            tally: Tally::new(),
        }
    }
}

/// Gives up a run for which there is no memory: the hand does nothing but join the scope. Workers
/// that sleep are woken, so that they see it.
pub(crate) fn give_up<B: OnTable, R: Wait>(rt: &R, table: &OpTable<Item>, own: Own) -> Own
    requires on { B.is table.now }
    requires desk { B.desk ≡ own.desk }
    requires spare { IsSpare table.now own.hand }
    ensures ended { IsEnded B.is result.hand }
    ensures desk { KeepsOwn B.desk result.desk }
{
    let Own { hand, desk } = own;
    let last = join_idle(rt, table, hand);
    if let Some(desk) = &desk {
        desk.deck.wake_all();
    }
    Own { hand: last, desk }
}
