//! One is added to a number, by an operation of its own.
ghost use Rattle.std.specs.Prelude.{◌≡◌, IfOk};
ghost use Rattle.std.specs.Thread.{IsSync};
ghost use Rattle.by_example.specs.Adder.{one_more, next_of};

use crate::fault::AddFault;
use crate::opening::{close_one, open_one};
use crate::planning::{adder_steps, plan_adder};
use crate::running::run_number;
use exec_recv::OpenGate;
use exec_value::Completion;
use std::alloc::Global;
use std::sync::Wait;

/// Adds one to a number: makes the plan, opens a table, runs one operation there, and closes the
/// table. What it promises holds if it returns.
///
/// Afterwards: the operation completed as `then` does whose child gives this number as its value
/// ([exec.then]): with the next number, or with the error `overflow` where an `i64` holds no next.
pub fn add_one<R: Wait + Sync>(rt: &R, alloc: Global, number: i64) -> Result<Completion, AddFault>
    requires sync { IsSync R.row }
    ensures then { IfOk result (λ c. c ≡ one_more number) }
    ensures next { IfOk result (λ c. c ≡ next_of number) }
{
    let gate = OpenGate;
    let plan = plan_adder(alloc)?;
    let steps = adder_steps(alloc, &plan, &gate)?;
    let (table, mut hands) = open_one(alloc, &plan)?;
    let hand = hands.remove(0);
    let answer = run_number(rt, alloc, &plan, &steps, &table, hand, number);
    let closing = close_one(table, hands, answer.hand);
    prove!(closing.free() + closing.retired() == 1);
    answer.completion
}
