//! One is added to each number of a stream, by operations on workers.
ghost use Rattle.std.specs.Prelude.{IfOk, OnErr, vec_len};
ghost use Rattle.std.specs.Thread.{IsSync};
ghost use Rattle.record_loop.specs.declared.printer.Form.{Form};
ghost use Rattle.whole_run.specs.Accounts.{EndsRun};
ghost use Rattle.whole_run.specs.Endings.{IsUnbegun, streams};
ghost use Rattle.run_workers.specs.Crews.{IsCrew};
ghost use Rattle.by_example.specs.Adder.{pool_adder};
ghost use Rattle.by_example.specs.Streams.{AddsOneToEach};
ghost use Rattle.by_example.specs.declared.streaming.TheConstants.{WINDOW};

use crate::planning::plan_pool_adder;
use exec_io::Sink;
use exec_recv::OpenGate;
use record_loop::{Form, RecordSource};
use run_workers::Crew;
use std::alloc::{AllocError, Global};
use std::sync::Wait;
use std::thread::Threads;
use whole_run::{Account, Setup, run_lines};

/// So many lines are worked on at once.
pub const WINDOW: usize = 64;

/// Adds one to the number of each line of a source, and writes a line for each, in order: by
/// operations that start on the pool ([exec.starts.on]), where the workers of a crew run them, each
/// in a thread of its own. Where no thread can be started the calling thread does their work. It
/// fails only for want of memory, and what it promises holds if it returns.
///
/// Afterwards: what `run_lines` promises for the plan. So the line of each number is that of the
/// next number, or of the error `overflow`, and each other line is a bad record, whatever the
/// workers did; it is told by an operation of the table that the account tells of, which was closed
/// with its scope joined and each block given back.
pub fn add_lines<R: Threads + Wait + Sync, S: RecordSource, K: Sink>(
    rt: &R,
    alloc: Global,
    crew: Crew,
    records: &mut S,
    out: &mut K,
) -> Result<Account, AllocError>
    requires sync { IsSync R.row }
    requires crew { IsCrew crew.workers (vec_len crew.backends) }
    ensures ends { IfOk result (EndsRun pool_adder WINDOW Form.Lines
        (streams (S.told records.old) (S.reads records.old) (K.told out.old))
        (streams (S.told records.new) (S.reads records.new) (K.told out.new))) }
    ensures unbegun { OnErr result (IsUnbegun
        (streams (S.told records.old) (S.reads records.old) (K.told out.old))
        (streams (S.told records.new) (S.reads records.new) (K.told out.new))) }
    ensures adds { IfOk result
        (AddsOneToEach S.told K.told records.old records.new out.old out.new) }
{
    let gate = OpenGate;
    let plan = plan_pool_adder(alloc)?;
    run_lines(
        rt,
        alloc,
        &plan,
        Setup {
            window: WINDOW,
            form: Form::Lines,
            crew,
        },
        &gate,
        records,
        out,
    )
}
