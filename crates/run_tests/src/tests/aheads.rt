//! Plans with an `ahead`, whose first child runs as an operation of its own, beside workers.
ghost use Rattle.std.specs.Prelude.{◌≤◌};
ghost use Rattle.std.specs.Thread.{IsSync};
ghost use Rattle.record_lines.specs.declared.limits.TheConstants.{MOST_RECORDS};

use super::crews::{ONE, Team, Trial, all_write, writes};
use super::unlawful::Way;
use exec_recv::{Gate, OpenGate, Point};
use std::alloc::Global;
use std::process::Abort;
use std::sync::Wait;
use std::sync::atomic::{AtomicU64, Ordering};
use std::thread::Threads;

/// Twice the record on the pool, and one more than the record where the operation was started.
const BOTH: &str = r#"{"do":"ahead","first":{"do":"starts_on","on":"pool",
            "child":{"do":"then","child":{"do":"input"},"job":{"job":"mul","n":2}}},
        "second":{"do":"then","child":{"do":"input"},"job":{"job":"add","n":1}}}"#;

/// The second fails: the first is abandoned, while it waits for many turns.
const ABANDONED: &str = r#"{"do":"ahead","first":{"do":"delay","turns":40},
        "second":{"do":"starts_on","on":"pool","child":{"do":"just_error","error":"e"}}}"#;

/// 300 records of each, so many at once.
const JOINED: Trial<'static> = Trial {
    settings: "",
    root: BOTH,
    window: 8,
    count: 300,
};

const LEFT: Trial<'static> = Trial {
    settings: "",
    root: ABANDONED,
    window: 8,
    count: 300,
};

/// What 300 records of `BOTH` are summed up to.
const SUM: &str = "records 300 values 300 errors 0 stopped 0 out-of-memory 0 bad 0 sum 44813316\n";

/// Whether the trial writes this line with so many workers, who are fewer than 32.
fn is_so<R: Threads + Wait + Sync>(
    rt: &R,
    alloc: Global,
    trial: Trial<'_>,
    workers: u32,
    line: &str,
) -> bool
    requires sync { IsSync R.row }
    requires few { trial.count ≤ MOST_RECORDS }
{
    if workers >= 32 {
        return false;
    }
    writes(
        rt,
        alloc,
        trial,
        Team { workers, ..ONE },
        &OpenGate,
        &[line],
    )
}

/// Asserts the same of each window and so many workers.
fn all_are_so<R: Threads + Wait + Abort + Sync>(
    rt: &R,
    alloc: Global,
    trial: Trial<'_>,
    windows: &[u32],
    workers: &[u32],
    line: &str,
)
    requires sync { IsSync R.row }
    requires few { trial.count ≤ MOST_RECORDS }
{
    for window in windows {
        for count in workers {
            let trial = Trial {
                window: *window,
                ..trial
            };
            assert!(rt; is_so(rt, alloc, trial, *count, line), "{window} {count}");
        }
    }
}

#[test]
fn an_ahead_joins_both_with_any_window_and_workers(rt: HostRuntime) {
    let windows = [1, 2, 63, 64, 65, 192, 193, 256];
    all_are_so(&rt, rt.alloc(), JOINED, &windows, &[0, 1, 3, 16], SUM);
}

#[test]
fn what_is_abandoned_is_ended_before_the_scope_is_joined(rt: HostRuntime) {
    let line = "records 300 values 0 errors 300 stopped 0 out-of-memory 0 bad 0 sum 0\n";
    all_are_so(&rt, rt.alloc(), LEFT, &[1, 4, 100, 256], &[0, 2], line);
}

#[test]
fn a_backend_that_is_not_lawful_loses_no_future(rt: HostRuntime) {
    let ways = [Way::Drops, Way::Repeats, Way::Invents, Way::Keeps];
    all_write(&rt, rt.alloc(), JOINED, &ways, SUM);
}

/// A gate that counts how often the `ahead`, which is node 2, is taken.
#[derive(Drop)]
struct Takes {
    count: AtomicU64,
}

impl Gate for Takes {
    fn pass(&self, point: Point) {
        if let Point::Take(name) = point {
            if name.node == 2 {
                let _before = self.count.fetch_add(1, Ordering::SeqCst);
            }
        }
    }
}

// It is taken to spawn its first child, to begin its second, to see both done, and to complete.
#[test]
fn an_ahead_is_taken_past_the_gate(rt: HostRuntime) {
    let line = "records 1 values 1 errors 0 stopped 0 out-of-memory 0 bad 0 sum 7937\n";
    let gate = Takes {
        count: AtomicU64::new(0),
    };
    let trial = Trial {
        settings: "",
        root: r#"{"do":"ahead","first":{"do":"input"},"second":{"do":"just","values":[1]}}"#,
        window: 1,
        count: 1,
    };
    let alone = Team { workers: 0, ..ONE };
    let written = writes(&rt, rt.alloc(), trial, alone, &gate, &[line]);
    let taken = gate.count.load(Ordering::SeqCst);
    assert!(rt; written && taken == 4);
}
