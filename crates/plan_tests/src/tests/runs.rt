//! Runs over records: what no file of cases can show of them.
ghost use Rattle.std.specs.Thread.{IsSync};
ghost use Rattle.plain_runs.specs.PlainWork.{plain_work, WantsMemory};

use super::finished;
use exec_io::{MemSink, MemSource};
use exec_job::Job;
use exec_value::{Completion, Datum};
use line_rules::may_run;
use plain_runs::PlainRuns;
use plan_builder::{Built, Context, Plan, PlanBuilder};
use record_lines::End;
use record_loop::{Ending, Form, Operations, RecordSource, run_records};
use sig_check::check;
use std::alloc::{AllocError, Global};
use std::sync::Wait;

/// One more than the record, from the pool.
fn adding(builder: &mut PlanBuilder) -> Built {
    let input = builder.input()?;
    let added = builder.then(input, Job::Add(1))?;
    builder.starts_on(Context::Pool, added)
}

/// Operations that go on by turns: one is started, and collected, only where a turn came before.
#[derive(Drop)]
struct InTurns<'a> {
    runs: PlainRuns<'a>,
    turned: bool,
}

impl<'a> Operations for InTurns<'a> {
    ghost state = { λ s. plain_work s.runs };

    ghost WantsMemory = { WantsMemory };

    fn start<R: Wait + Sync>(
        &mut self,
        rt: &R,
        alloc: Global,
        number: u32,
        datum: Datum,
    ) -> Result<u32, Datum> {
        if self.turned {
            self.turned = false;
            self.runs.start(rt, alloc, number, datum)
        } else {
            Err(datum)
        }
    }

    fn turn<R: Wait + Sync>(&mut self, rt: &R, alloc: Global) {
        self.turned = true;
        self.runs.turn(rt, alloc)
    }

    fn collect<R: Wait + Sync>(&mut self, rt: &R, ticket: u32) -> Option<Completion> {
        if self.turned {
            self.turned = false;
            self.runs.collect(rt, ticket)
        } else {
            None
        }
    }

    fn request<R: Wait + Sync>(&mut self, rt: &R) {
        self.runs.request(rt)
    }
}

/// How a run over a plan ended, in turns, with a window of 2, over a source and a sink.
fn run_plan<R: Wait + Sync, S: RecordSource>(
    rt: &R,
    alloc: Global,
    plan: &Plan,
    records: &mut S,
    out: &mut MemSink,
) -> Option<Ending>
    requires { IsSync R.row }
{
    match check(alloc, plan) {
        Ok(sigs) => drop(sigs),
        Err(_) => return None,
    }
    let settings = *plan.settings();
    if !may_run(&settings) {
        return None;
    }
    match PlainRuns::open(alloc, plan, 2) {
        Ok(runs) => {
            let mut turns = InTurns {
                runs,
                turned: false,
            };
            let form = Form::Lines;
            let ending = run_records(rt, alloc, settings, 2, form, &mut turns, records, out);
            drop(turns);
            ending.ok()
        }
        Err(_) => None,
    }
}

/// The plan of `adding`.
pub(super) fn adding_plan(alloc: Global) -> Option<Plan> {
    let mut builder = PlanBuilder::new(alloc);
    let root = adding(&mut builder);
    finished(builder, root)
}

/// The same run over that plan.
fn run<R: Wait + Sync, S: RecordSource>(
    rt: &R,
    alloc: Global,
    records: &mut S,
    out: &mut MemSink,
) -> Option<Ending>
    requires { IsSync R.row }
{
    match adding_plan(alloc) {
        Some(plan) => {
            let ending = run_plan(rt, alloc, &plan, records, out);
            drop(plan);
            ending
        }
        None => None,
    }
}

/// The bytes that a run reads, of which the reads of these numbers fail, and what it writes by so
/// many bytes, of which the writes of these numbers fail.
#[derive(Clone, Copy)]
struct Given<'a> {
    input: &'a [u8],
    reads: &'a [u64],
    most: usize,
    writes: &'a [u64],
    written: &'a [u8],
}

fn source_of(alloc: Global, given: &Given<'_>) -> Result<MemSource, AllocError> {
    let input = given.input.to_vec(alloc)?;
    let reads = given.reads.to_vec(alloc)?;
    Ok(MemSource::new(input, reads))
}

fn sink_of(alloc: Global, given: &Given<'_>) -> Result<MemSink, AllocError> {
    let writes = given.writes.to_vec(alloc)?;
    Ok(MemSink::new(alloc, given.most, writes))
}

/// How a run over this source ended, where it wrote what it should.
pub(super) fn ending_over<R: Wait + Sync, S: RecordSource>(
    rt: &R,
    alloc: Global,
    records: &mut S,
    mut out: MemSink,
    written: &[u8],
) -> Option<Ending>
    requires { IsSync R.row }
{
    let ending = run(rt, alloc, records, &mut out);
    let told = out.bytes() == written;
    drop(out);
    if told { ending } else { None }
}

/// The same over what is given.
fn ending_of<R: Wait + Sync>(rt: &R, alloc: Global, given: &Given<'_>) -> Option<Ending>
    requires { IsSync R.row }
{
    let Ok(mut source) = source_of(alloc, given) else {
        return None;
    };
    match sink_of(alloc, given) {
        Ok(out) => {
            let ending = ending_over(rt, alloc, &mut source, out, given.written);
            drop(source);
            ending
        }
        Err(_) => {
            drop(source);
            None
        }
    }
}

#[test]
fn operations_that_need_turns_are_waited_for(rt: HostRuntime) {
    let given = Given {
        input: b"5\n-1\n7\n",
        reads: &[],
        most: 4096,
        writes: &[],
        written: b"1 value 6\n2 value 0\n3 value 8\n",
    };
    let told = match ending_of(&rt, rt.alloc(), &given) {
        Some(ending) => ending.end() == End::Ended,
        None => false,
    };
    assert!(rt; told);
}

#[test]
fn lines_whose_line_feed_was_read_are_written_at_a_fault(rt: HostRuntime) {
    let given = Given {
        input: b"5\n-1\n7",
        reads: &[2],
        most: 4096,
        writes: &[],
        written: b"1 value 6\n2 value 0\n",
    };
    let told = match ending_of(&rt, rt.alloc(), &given) {
        Some(ending) => ending.end() == End::Fault && !ending.is_lost(),
        None => false,
    };
    assert!(rt; told);
}

#[test]
fn after_a_lost_write_no_record_is_begun(rt: HostRuntime) {
    let given = Given {
        input: b"5\n-1\n7\n8\n9\n",
        reads: &[],
        most: 1,
        writes: &[3],
        written: b"1 ",
    };
    let told = match ending_of(&rt, rt.alloc(), &given) {
        Some(ending) => ending.is_lost() && ending.summary().lines() == 2,
        None => false,
    };
    assert!(rt; told);
}
