//! What a run of these tests is given, and what it is to leave.
ghost use Rattle.std.specs.Thread.{IsSync};

use super::backends::{Called, call};
use super::{shelf, sink, source};
use exec_engine::{Status, System};
use exec_io::{MemShelf, MemSink, MemSource};
use exec_recv::{Gate, OpenGate};
use std::alloc::{AllocError, Global};
use std::sync::Wait;
use std::thread::Threads;

/// A plan that adds one to each record.
pub const ADD_ONE: &str = r#"{"version":1,"input":"int",
        "root":{"do":"then","child":{"do":"input"},"job":{"job":"add","n":1}}}"#;

/// A first child that runs as an operation of its own.
pub const AHEAD: &str = r#"{"version":2,"input":"int",
        "root":{"do":"ahead","first":{"do":"starts_on","on":"pool",
                "child":{"do":"then","child":{"do":"input"},"job":{"job":"mul","n":2}}},
            "second":{"do":"then","child":{"do":"input"},"job":{"job":"add","n":1}}}}"#;

/// A trace that is taken.
pub const TRACE: &str = "exec 2 1 1 counting 1\nnode 1 plain\nnode - plain\n\
    0 claim 0\n0 begin 0.1\n0 await 0.1 0\n0 begin 0.0\n0 finish 0.0\n0 report 0.0\n\
    0 finish 0.1\n0 release 0\n";

/// What a run is given: the text of the file `plan.json`, the bytes of its source, how many bytes
/// out and notes take a write, and at which calls each of them fails.
#[derive(Clone, Copy)]
pub struct Given<'a> {
    pub text: &'a str,
    pub input: &'a [u8],
    pub reads: &'a [u64],
    pub out: usize,
    pub writes: &'a [u64],
    pub notes: usize,
    pub told: &'a [u64],
}

/// What takes all.
pub const ALL: Given<'_> = Given {
    text: ADD_ONE,
    input: b"",
    reads: &[],
    out: 4096,
    writes: &[],
    notes: 4096,
    told: &[],
};

/// What a run is to leave: its status, and what out and notes hold.
#[derive(Clone, Copy)]
pub struct Left<'a> {
    pub status: Status,
    pub out: &'a str,
    pub notes: &'a str,
}

/// What a run of these tests runs on.
pub type Memory = System<MemShelf, MemSource, MemSink, MemSink>;

/// A shelf and a source of what is given.
pub fn files_of(alloc: Global, given: Given<'_>) -> Result<(MemShelf, MemSource), AllocError> {
    let shelf = shelf(alloc, "plan.json", given.text.as_bytes(), &[])?;
    match source(alloc, given.input, given.reads) {
        Ok(records) => Ok((shelf, records)),
        Err(fault) => {
            drop(shelf);
            Err(fault)
        }
    }
}

/// Sinks of what is given.
fn sinks_of(alloc: Global, given: Given<'_>) -> Result<(MemSink, MemSink), AllocError> {
    let out = sink(alloc, given.out, given.writes)?;
    match sink(alloc, given.notes, given.told) {
        Ok(notes) => Ok((out, notes)),
        Err(fault) => {
            drop(out);
            Err(fault)
        }
    }
}

/// What a run runs on where this is given.
pub fn memory(alloc: Global, given: Given<'_>) -> Result<Memory, AllocError> {
    let (shelf, records) = files_of(alloc, given)?;
    match sinks_of(alloc, given) {
        Ok((out, notes)) => Ok(System {
            shelf,
            records,
            out,
            notes,
        }),
        Err(fault) => {
            drop(shelf);
            drop(records);
            Err(fault)
        }
    }
}

/// Whether a run left this, if it was to leave something.
fn has_left(system: &Memory, status: Status, left: Option<Left<'_>>) -> bool {
    match left {
        Some(left) => {
            status == left.status
                && system.out.bytes() == left.out.as_bytes()
                && system.notes.bytes() == left.notes.as_bytes()
        }
        None => true,
    }
}

/// What a run with these words, past this gate, came to, where it left what it should.
pub fn run_past<G: Gate + Sync, R: Threads + Wait + Sync>(
    rt: &R,
    alloc: Global,
    words: &[&str],
    given: Given<'_>,
    gate: &G,
    left: Option<Left<'_>>,
) -> Option<Called>
    requires { IsSync R.row }
{
    let Ok(mut system) = memory(alloc, given) else {
        return None;
    };
    match call(rt, alloc, words, gate, &mut system) {
        Ok(called) => {
            let told = has_left(&system, called.status, left);
            drop(system);
            if told { Some(called) } else { None }
        }
        Err(_) => {
            drop(system);
            None
        }
    }
}

/// What a run came to past an open gate, whatever it left.
pub fn called_with<R: Threads + Wait + Sync>(
    rt: &R,
    alloc: Global,
    words: &[&str],
    given: Given<'_>,
) -> Option<Called>
    requires { IsSync R.row }
{
    run_past(rt, alloc, words, given, &OpenGate, None)
}

/// Whether such a run leaves this.
pub fn leaves<R: Threads + Wait + Sync>(
    rt: &R,
    alloc: Global,
    words: &[&str],
    given: Given<'_>,
    left: Left<'_>,
) -> bool
    requires { IsSync R.row }
{
    run_past(rt, alloc, words, given, &OpenGate, Some(left)).is_some()
}
