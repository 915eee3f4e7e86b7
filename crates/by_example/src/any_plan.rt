//! A plan that isn't known beforehand: it is read from JSON, and run over the lines of a stream.
ghost use Rattle.std.specs.Prelude.{IfOk, IfErr, OnErr, vec_len};
ghost use Rattle.std.specs.Thread.{IsSync};
ghost use Rattle.whole_run.specs.Endings.{IsUnbegun, streams};
ghost use Rattle.run_workers.specs.Crews.{IsCrew};
ghost use Rattle.by_example.specs.AnyPlan.{AnswersFault, RunsText};

use crate::streaming::WINDOW;
use exec_io::Sink;
use exec_recv::OpenGate;
use line_rules::at_once;
use plan_reader::{PlanFault, read_plan};
use record_loop::{Form, RecordSource};
use run_workers::Crew;
use std::alloc::Global;
use std::sync::Wait;
use std::thread::Threads;
use whole_run::{Account, Setup, run_lines};

/// Reads a plan from JSON, runs it for each line of a source, and writes a line for each, in order.
/// What it promises holds if it returns.
///
/// Afterwards: the text is a plan, and what `run_lines` promises for it: so each line is lawful for
/// the plan, and told by an operation of the table that the account tells of, which was closed with
/// its scope joined and each block given back. Else the text is no plan, for the cause that is
/// answered, or there was no memory; nothing was read of the source then, and nothing written.
pub fn run_text<R: Threads + Wait + Sync, S: RecordSource, K: Sink>(
    rt: &R,
    alloc: Global,
    text: &[u8],
    crew: Crew,
    records: &mut S,
    out: &mut K,
) -> Result<Account, PlanFault>
    requires sync { IsSync R.row }
    requires crew { IsCrew crew.workers (vec_len crew.backends) }
    ensures runs { IfOk result (RunsText text.now
        (streams (S.told records.old) (S.reads records.old) (K.told out.old))
        (streams (S.told records.new) (S.reads records.new) (K.told out.new))) }
    ensures fault { IfErr result (AnswersFault text.now) }
    ensures unbegun { OnErr result (IsUnbegun
        (streams (S.told records.old) (S.reads records.old) (K.told out.old))
        (streams (S.told records.new) (S.reads records.new) (K.told out.new))) }
{
    let plan = read_plan(alloc, text)?;
    // Asked for what it says of every plan.
    let _ = plan.size();
    let gate = OpenGate;
    let account = run_lines(
        rt,
        alloc,
        &plan,
        Setup {
            window: at_once(&plan, WINDOW),
            form: Form::Lines,
            crew,
        },
        &gate,
        records,
        out,
    )?;
    Ok(account)
}
