//! A table is closed, whatever becomes of the source and of out.
ghost use Rattle.std.specs.Thread.{IsSync};

use super::{ADDING, Left, NOTHING, is_left, nobody, plan_of, runs, sink, source};
use exec_io::{MemSink, MemSource};
use exec_recv::OpenGate;
use exec_value::Kind;
use record_lines::End;
use record_loop::{Form, Generated, RecordSource};
use std::alloc::Global;
use std::sync::Wait;
use std::thread::Threads;
use whole_run::Setup;

/// What a run left, and whether it wrote the lines that are expected.
#[derive(Clone, Copy)]
struct Ran {
    left: Left,
    written: bool,
}

/// There was no run.
const NOT_RUN: Ran = Ran {
    left: NOTHING,
    written: false,
};

/// A run of `ADDING` with a window of 2, over these records and a sink.
fn run<R: Threads + Wait + Sync, S: RecordSource + Drop>(
    rt: &R,
    alloc: Global,
    form: Form,
    mut records: S,
    mut out: MemSink,
    lines: &[u8],
) -> Ran
    requires { IsSync R.row }
{
    let Some(plan) = plan_of(alloc, "", ADDING) else {
        drop(records);
        drop(out);
        return NOT_RUN;
    };
    let setup = Setup {
        window: 2,
        form,
        crew: nobody(alloc),
    };
    let left = runs(rt, alloc, &plan, setup, &OpenGate, &mut records, &mut out);
    drop(plan);
    drop(records);
    let written = out.bytes() == lines;
    drop(out);
    Ran { left, written }
}

/// The same over a source of these bytes, whose reads of these numbers fail.
fn run_over<R: Threads + Wait + Sync>(
    rt: &R,
    alloc: Global,
    bytes: &[u8],
    fails: &[u64],
    out: MemSink,
    lines: &[u8],
) -> Ran
    requires { IsSync R.row }
{
    match source(alloc, bytes, fails) {
        Some(records) => run(rt, alloc, Form::Lines, records, out, lines),
        None => {
            drop(out);
            NOT_RUN
        }
    }
}

#[test]
fn after_an_ended_input(rt: HostRuntime) {
    let alloc = rt.alloc();
    let bytes = b"5\n-1\nx\n9223372036854775807\n";
    let lines = b"1 value 6\n2 value 0\n3 bad-record\n4 error overflow\n";
    let ran = run_over(&rt, alloc, bytes, &[], sink(alloc), lines);
    let left = ran.left;
    assert!(rt; ran.written && left.end == End::Ended);
    assert!(rt; left.values == 2 && left.errors == 1 && is_left(left, 2));
}

#[test]
fn after_a_read_fault(rt: HostRuntime) {
    let alloc = rt.alloc();
    let lines = b"1 value 6\n2 value 0\n";
    let ran = run_over(&rt, alloc, b"5\n-1\n7", &[2], sink(alloc), lines);
    assert!(rt; ran.written && ran.left.end == End::Fault && is_left(ran.left, 2));
}

/// The same over an out that takes a byte at once, and whose third write fails.
fn run_to_a_lost_write<R: Threads + Wait + Sync>(
    rt: &R,
    alloc: Global,
    bytes: &[u8],
    lines: &[u8],
) -> Ran
    requires { IsSync R.row }
{
    match [3u64].to_vec(alloc) {
        Ok(fails) => {
            let out = MemSink::new(alloc, 1, fails);
            run_over(rt, alloc, bytes, &[], out, lines)
        }
        Err(_) => NOT_RUN,
    }
}

#[test]
fn after_a_lost_write(rt: HostRuntime) {
    let ran = run_to_a_lost_write(&rt, rt.alloc(), b"5\n-1\n7\n8\n9\n", b"1 ");
    assert!(rt; ran.written && ran.left.is_lost && is_left(ran.left, 2));
}

/// So many records `0`.
fn zeros(alloc: Global, count: u32) -> Option<Vec<u8>> {
    let mut bytes = Vec::new(alloc);
    for _ in 0..count {
        if bytes.extend_from_slice(b"0\n").is_err() {
            drop(bytes);
            return None;
        }
    }
    Some(bytes)
}

/// What a run over so many of them leaves.
fn run_zeros<R: Threads + Wait + Sync>(rt: &R, alloc: Global, count: u32) -> Left
    requires { IsSync R.row }
{
    match zeros(alloc, count) {
        Some(bytes) => {
            let records = MemSource::new(bytes, Vec::new(alloc));
            run(rt, alloc, Form::Summary, records, sink(alloc), b"").left
        }
        None => NOTHING,
    }
}

#[test]
fn at_a_limit(rt: HostRuntime) {
    let left = run_zeros(&rt, rt.alloc(), 1_000_001);
    assert!(rt; left.end == End::Limit && left.values == 1_000_000 && is_left(left, 2));
}

/// What a run over three generated records leaves.
fn run_generated<R: Threads + Wait + Sync>(rt: &R, alloc: Global, lines: &[u8]) -> Ran
    requires { IsSync R.row }
{
    match Generated::new(alloc, Kind::Int, 3) {
        Ok(records) => run(rt, alloc, Form::Summary, records, sink(alloc), lines),
        Err(_) => NOT_RUN,
    }
}

#[test]
fn after_generated_records(rt: HostRuntime) {
    let line = b"records 3 values 3 errors 0 stopped 0 out-of-memory 0 bad 0 sum 47568\n";
    let ran = run_generated(&rt, rt.alloc(), line);
    let left = ran.left;
    assert!(rt; ran.written && left.end == End::Ended && left.values == 3 && is_left(left, 2));
}
