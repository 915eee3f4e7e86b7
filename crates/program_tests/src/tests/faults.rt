//! What only a shelf, a source and sinks in memory can show: faults at each call, and want of
//! memory. The other worked examples are cases of the program (tests/cases/engine.json).
ghost use Rattle.std.specs.Thread.{IsSync};

use super::backends::call;
use super::engine::{ALL, Given, Left, TRACE, files_of, leaves};
use exec_engine::{Status, System};
use exec_io::{MemShelf, MemSink, MemSource, NeverFails};
use exec_recv::OpenGate;
use std::alloc::{AllocError, Global};
use std::sync::Wait;
use std::thread::Threads;

// Whether a run leaves this where out takes so many bytes a write, and fails at this one.
fn fails_at<R: Threads + Wait + Sync>(
    rt: &R,
    alloc: Global,
    out: usize,
    call: u64,
    left: Left<'_>,
) -> bool
    requires { IsSync R.row }
{
    let given = Given {
        input: b"abc\n7\n",
        out,
        writes: &[call],
        ..ALL
    };
    leaves(rt, alloc, &["run", "plan.json"], given, left)
}

const LOST: Left<'_> = Left {
    status: Status::WriteFault,
    out: "",
    notes: "write fault\n",
};

#[test]
fn a_failed_write_leaves_what_was_written(rt: HostRuntime) {
    // Out fails at its first write, at a later one, or at no call.
    let first = fails_at(&rt, rt.alloc(), 1, 1, LOST);
    let part = Left {
        out: "1 bad-re",
        ..LOST
    };
    let later = fails_at(&rt, rt.alloc(), 1, 9, part);
    let whole = Left {
        status: Status::NotAllValues,
        out: "1 bad-record\n2 value 8\n",
        notes: "",
    };
    let never = fails_at(&rt, rt.alloc(), 4096, 99, whole);
    assert!(rt; first && later && never);
}

#[test]
fn out_that_fails_is_a_write_fault_of_a_check(rt: HostRuntime) {
    // Out takes one byte a write, and fails at the third.
    let given = Given {
        text: TRACE,
        out: 1,
        writes: &[3],
        ..ALL
    };
    let left = Left { out: "ok", ..LOST };
    assert!(rt; leaves(&rt, rt.alloc(), &["check", "plan.json"], given, left));
}

// Whether a run whose second read fails leaves this, where notes take five bytes a write and fail
// at this one.
fn tells_until<R: Threads + Wait + Sync>(
    rt: &R,
    alloc: Global,
    call: u64,
    status: Status,
    notes: &str,
) -> bool
    requires { IsSync R.row }
{
    let given = Given {
        input: b"abc\n9",
        reads: &[2],
        notes: 5,
        told: &[call],
        ..ALL
    };
    let left = Left {
        status,
        out: "1 bad-record\n",
        notes,
    };
    leaves(rt, alloc, &["run", "plan.json"], given, left)
}

#[test]
fn a_write_fault_comes_before_a_read_fault(rt: HostRuntime) {
    let none = tells_until(&rt, rt.alloc(), 99, Status::ReadFault, "read fault\n");
    let second = tells_until(&rt, rt.alloc(), 2, Status::WriteFault, "read ");
    assert!(rt; none && second);
}

// Whether this command is refused by this status where notes fail.
fn is_refused<R: Threads + Wait + Sync>(
    rt: &R,
    alloc: Global,
    command: &str,
    status: Status,
    notes: &str,
) -> bool
    requires { IsSync R.row }
{
    let given = Given {
        text: "{",
        input: b"5\n",
        notes: 5,
        told: &[2],
        ..ALL
    };
    let left = Left {
        status,
        out: "",
        notes,
    };
    leaves(rt, alloc, &[command, "plan.json"], given, left)
}

#[test]
fn a_refusal_stands_where_notes_fail(rt: HostRuntime) {
    let run = is_refused(&rt, rt.alloc(), "run", Status::PlanRefused, "plan ");
    let check = is_refused(&rt, rt.alloc(), "check", Status::PlanRefused, "trace");
    let replay = is_refused(&rt, rt.alloc(), "replay", Status::PlanRefused, "trace");
    let start = is_refused(&rt, rt.alloc(), "start", Status::Usage, "usage");
    assert!(rt; run && check && replay && start);
}

/// What a run of these tests runs on whose sinks never fail.
type Sure = System<MemShelf, MemSource, NeverFails<MemSink>, NeverFails<MemSink>>;

fn sure(alloc: Global, input: &[u8]) -> Result<Sure, AllocError> {
    let given = Given { input, ..ALL };
    let (shelf, records) = files_of(alloc, given)?;
    Ok(System {
        shelf,
        records,
        out: NeverFails::new(MemSink::new(alloc, 4096, Vec::new(alloc))),
        notes: NeverFails::new(MemSink::new(alloc, 4096, Vec::new(alloc))),
    })
}

// Whether a run ends for want of memory, or well and with no note.
fn ends_for_want_alone<R: Threads + Wait + Sync>(rt: &R, alloc: Global, system: &mut Sure) -> bool
    requires { IsSync R.row }
{
    match call(rt, alloc, &["run", "plan.json"], &OpenGate, system) {
        Ok(called) => match called.status {
            Status::NoMemory => true,
            Status::AllValues => system.notes.inner().bytes().is_empty(),
            _ => false,
        },
        Err(_) => false,
    }
}

#[test]
fn want_of_memory_ends_the_run(rt: HostRuntime) {
    let told = match sure(rt.alloc(), b"5\n-1\n") {
        Ok(mut system) => {
            let told = ends_for_want_alone(&rt, rt.alloc(), &mut system);
            drop(system);
            told
        }
        Err(_) => false,
    };
    assert!(rt; told);
}
