//! A body of `run` that does all work on the calling thread is refused here: one job waits for
//! another, which no thread but a second one can run.
ghost use Rattle.std.specs.Thread.{IsSync};

use super::engine::{ALL, Given, Left, run_past};
use exec_engine::Status;
use exec_recv::{Gate, Point};
use std::alloc::Global;
use std::sync::Wait;
use std::sync::atomic::{AtomicU64, Ordering};
use std::thread::{Threads, yield_now};

/// So often the first job looks for the second before it goes on all the same.
const MOST_LOOKS: u32 = 1_000_000;

/// Adds one to each record, on the pool, with no stop rule.
const FREE: &str = r#"{"version":1,"input":"int",
        "root":{"do":"starts_on","on":"pool",
            "child":{"do":"then","child":{"do":"input"},"job":{"job":"add","n":1}}}}"#;

/// The same with rules whose event never comes, so that no record may be stopped.
const STOPS_AFTER: &str = r#"{"version":1,"input":"int","stop_after":3,
        "root":{"do":"starts_on","on":"pool",
            "child":{"do":"then","child":{"do":"input"},"job":{"job":"add","n":1}}}}"#;

const STOPS_ON_ERROR: &str = r#"{"version":1,"input":"int","on_error":"stop",
        "root":{"do":"starts_on","on":"pool",
            "child":{"do":"then","child":{"do":"input"},"job":{"job":"add","n":1}}}}"#;

/// A gate that holds the job of record 1 until that of record 2 has passed, for so many looks.
#[derive(Drop)]
struct Holding {
    /// How often each of the two jobs passed.
    first: AtomicU64,
    second: AtomicU64,
    /// The first went on without the second.
    missed: AtomicU64,
}

impl Holding {
    fn new() -> Holding {
        Holding {
            first: AtomicU64::new(0),
            second: AtomicU64::new(0),
            missed: AtomicU64::new(0),
        }
    }

    fn hold(&self) {
        self.first.fetch_add(1, Ordering::SeqCst);
        for _look in 0..MOST_LOOKS {
            if self.second.load(Ordering::SeqCst) != 0 {
                return;
            }
            yield_now();
        }
        self.missed.store(1, Ordering::SeqCst);
    }

    /// Whether each of the two jobs passed once, and the second came while the first was held.
    fn saw_both(&self) -> bool {
        self.first.load(Ordering::SeqCst) == 1
            && self.second.load(Ordering::SeqCst) == 1
            && self.missed.load(Ordering::SeqCst) == 0
    }
}

impl Gate for Holding {
    fn pass(&self, point: Point) {
        if let Point::Job { number, node: _ } = point {
            if number == 1 {
                self.hold();
            } else {
                self.second.fetch_add(1, Ordering::SeqCst);
            }
        }
    }
}

/// Whether such a run over this plan has its two jobs run at once, and writes this.
fn is_two_at_once<'x, R: Threads + Wait + Sync>(
    rt: &R,
    alloc: Global,
    words: &[&str],
    plan: &'x str,
    input: &'x [u8],
    out: &'x str,
) -> bool
    requires { IsSync R.row }
{
    let gate = Holding::new();
    let given = Given {
        text: plan,
        input,
        ..ALL
    };
    let left = Left {
        status: Status::AllValues,
        out,
        notes: "",
    };
    let ran = run_past(rt, alloc, words, given, &gate, Some(left)).is_some();
    let both = gate.saw_both();
    drop(gate);
    ran && both
}

/// Whether this holds of each of the plans.
fn are_two_at_once<'x, R: Threads + Wait + Sync>(
    rt: &R,
    alloc: Global,
    words: &[&str],
    input: &'x [u8],
    out: &'x str,
) -> bool
    requires { IsSync R.row }
{
    is_two_at_once(rt, alloc, words, FREE, input, out)
        && is_two_at_once(rt, alloc, words, STOPS_AFTER, input, out)
        && is_two_at_once(rt, alloc, words, STOPS_ON_ERROR, input, out)
}

#[test]
fn two_at_once(rt: HostRuntime) {
    let words = &["run", "plan.json", "--workers", "2", "--window", "2"];
    let lines = "1 value 6\n2 value 8\n";
    assert!(rt; are_two_at_once(&rt, rt.alloc(), words, b"5\n7\n", lines));
}

#[test]
fn two_generated_at_once(rt: HostRuntime) {
    let words = &["gen", "plan.json", "2", "--workers", "2", "--window", "2"];
    let line = "records 2 values 2 errors 0 stopped 0 out-of-memory 0 bad 0 sum 23793\n";
    assert!(rt; are_two_at_once(&rt, rt.alloc(), words, b"", line));
}
