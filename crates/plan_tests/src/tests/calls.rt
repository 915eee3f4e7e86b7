//! The calls of a run over records: how much a read asks for, and when a turn comes. No clause says
//! it, since each record ends as it may without it.
ghost use Rattle.std.specs.Prelude.{◌≡◌};
ghost use Rattle.std.specs.Thread.{IsSync};
ghost use Rattle.exec_io.specs.Memory.{source_view};
ghost use Rattle.plain_runs.specs.PlainWork.{plain_work, WantsMemory};

use super::runs::{adding_plan, ending_over};
use exec_io::{Failed, MemSink, MemSource, Source};
use exec_value::{Completion, Datum, Kind};
use line_rules::may_run;
use plain_runs::PlainRuns;
use plan_builder::Plan;
use record_lines::End;
use record_loop::{Form, Generated, Operations, run_records};
use sig_check::check;
use std::alloc::{AllocError, Global};
use std::sync::Wait;
use std::test::Fail;

/// The most calls that are noted.
const MOST_CALLS: usize = 8;

/// A source that notes how long the buffer of each read is.
#[derive(Drop)]
struct NotedSource {
    source: MemSource,
    lengths: [usize; MOST_CALLS],
    reads: usize,
}

impl Source for NotedSource {
    ghost told = { λ s. source_view s.source };

    fn read(&mut self, buf: &mut [u8]) -> Result<usize, Failed> {
        if self.reads < MOST_CALLS {
            self.lengths[self.reads] = buf.len();
            self.reads += 1;
        }
        self.source.read(buf)
    }
}

/// Where there is memory for so many bytes of one line.
fn noted(alloc: Global) -> Result<NotedSource, AllocError> {
    let line = vec![in alloc; b'7'; 140_000]?;
    Ok(NotedSource {
        source: MemSource::new(line, Vec::new(alloc)),
        lengths: [0; MOST_CALLS],
        reads: 0,
    })
}

#[test]
fn each_read_asks_for_a_whole_piece(rt: HostRuntime) -> Result<(), Fail> {
    let alloc = rt.alloc();
    let mut source = noted(alloc)?;
    let out = MemSink::new(alloc, 4096, Vec::new(alloc));
    let ran = ending_over(&rt, alloc, &mut source, out, b"1 bad-record\n").is_some();
    let lengths = source.lengths;
    drop(source);
    assert!(rt; ran && lengths == [65_536, 65_536, 65_536, 65_536, 0, 0, 0, 0]);
    Ok(())
}

/// A call of the layer that runs operations.
#[derive(Clone, Copy, Debug, PartialEq, Eq)]
enum Call {
    None,
    Start,
    Turn,
    Collect,
}

/// Operations whose first start is refused, and which aren't complete at the first try to collect.
/// The calls are noted.
#[derive(Drop)]
struct Reluctant<'a> {
    runs: PlainRuns<'a>,
    refused: bool,
    delayed: bool,
    calls: [Call; MOST_CALLS],
    count: usize,
}

impl<'a> Reluctant<'a> {
    fn note(&mut self, call: Call)
        ensures { self.new.runs ≡ self.old.runs }
    {
        if self.count < MOST_CALLS {
            self.calls[self.count] = call;
            self.count += 1;
        }
    }
}

impl<'a> Operations for Reluctant<'a> {
    ghost state = { λ s. plain_work s.runs };

    ghost WantsMemory = { WantsMemory };

    fn start<R: Wait + Sync>(
        &mut self,
        rt: &R,
        alloc: Global,
        number: u32,
        datum: Datum,
    ) -> Result<u32, Datum> {
        self.note(Call::Start);
        if self.refused {
            self.runs.start(rt, alloc, number, datum)
        } else {
            self.refused = true;
            Err(datum)
        }
    }

    fn turn<R: Wait + Sync>(&mut self, rt: &R, alloc: Global) {
        self.note(Call::Turn);
        self.runs.turn(rt, alloc)
    }

    fn collect<R: Wait + Sync>(&mut self, rt: &R, ticket: u32) -> Option<Completion> {
        self.note(Call::Collect);
        if self.delayed {
            self.runs.collect(rt, ticket)
        } else {
            self.delayed = true;
            None
        }
    }

    fn request<R: Wait + Sync>(&mut self, rt: &R) {
        self.runs.request(rt)
    }
}

/// What they are asked for by a run of one record.
const TRIES: [Call; MOST_CALLS] = [
    Call::Start,
    Call::Turn,
    Call::Start,
    Call::Collect,
    Call::Turn,
    Call::Collect,
    Call::None,
    Call::None,
];

/// Whether a run over a plan asks them for this.
fn asks_by_turns<R: Wait + Sync>(
    rt: &R,
    alloc: Global,
    plan: &Plan,
    source: &mut MemSource,
    out: &mut MemSink,
) -> bool
    requires { IsSync R.row }
{
    match check(alloc, plan) {
        Ok(sigs) => drop(sigs),
        Err(_) => return false,
    }
    let settings = *plan.settings();
    if !may_run(&settings) {
        return false;
    }
    match PlainRuns::open(alloc, plan, 2) {
        Ok(runs) => {
            let mut asked = Reluctant {
                runs,
                refused: false,
                delayed: false,
                calls: [Call::None; MOST_CALLS],
                count: 0,
            };
            let form = Form::Lines;
            let ran = run_records(rt, alloc, settings, 2, form, &mut asked, source, out);
            let calls = asked.calls;
            drop(asked);
            ran.is_ok() && calls == TRIES
        }
        Err(_) => false,
    }
}

#[test]
fn a_turn_lies_between_two_tries(rt: HostRuntime) -> Result<(), Fail> {
    let alloc = rt.alloc();
    let mut source = MemSource::new(b"5\n".to_vec(alloc)?, Vec::new(alloc));
    let mut out = MemSink::new(alloc, 4096, Vec::new(alloc));
    let asked = match adding_plan(alloc) {
        Some(plan) => {
            let asked = asks_by_turns(&rt, alloc, &plan, &mut source, &mut out);
            drop(plan);
            asked
        }
        None => false,
    };
    drop(source);
    let told = out.bytes() == b"1 value 6\n".as_slice();
    drop(out);
    assert!(rt; asked && told);
    Ok(())
}

#[test]
fn generated_records_run_as_any_others(rt: HostRuntime) -> Result<(), Fail> {
    let alloc = rt.alloc();
    let mut source = Generated::new(alloc, Kind::Int, 3)?;
    let out = MemSink::new(alloc, 4096, Vec::new(alloc));
    let lines = b"1 value 7937\n2 value 15856\n3 value 23775\n";
    let ending = ending_over(&rt, alloc, &mut source, out, lines);
    drop(source);
    let told = match ending {
        Some(ending) => ending.end() == End::Ended,
        None => false,
    };
    assert!(rt; told);
    Ok(())
}
