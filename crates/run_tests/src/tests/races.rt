//! Races between a worker and hand 0 that a gate forces.
ghost use Rattle.std.specs.Thread.{IsSync};

use super::crews::{MOST_LOOKS, ONE, RUNS, Trial, comes, writes};
use exec_recv::{Gate, Point};
use std::alloc::Global;
use std::sync::Wait;
use std::sync::atomic::{AtomicU64, Ordering};
use std::thread::Threads;

/// A delay that isn't due in a run, one that is due in the turn in which it is seen, and a job that
/// fails on the pool: then the callbacks of both delays are to run, in this order.
const ROOT: &str =
    r#"{"do":"when_all","children":[{"do":"delay","turns":1000000},{"do":"delay","turns":0},
            {"do":"starts_on","on":"pool",
                "child":{"do":"then","child":{"do":"input"},
                    "job":{"job":"fail","error":"late"}}}]}"#;

/// The nodes of the two delays.
const LATE: u32 = 0;

const DUE: u32 = 1;

/// A gate that holds the job until the delay that is due is to be taken, that until the callback of
/// this node runs, and that run until the delay goes on.
#[derive(Drop)]
struct Seen {
    held: u32,
    taken: AtomicU64,
    /// How often the callback of each delay ran.
    late_runs: AtomicU64,
    due_runs: AtomicU64,
    /// The delay that is due removes its callback, and is reported.
    withdrawn: AtomicU64,
    reported: AtomicU64,
    /// A hand went on without what it was held for.
    missed: AtomicU64,
}

impl Seen {
    fn new(held: u32) -> Seen {
        Seen {
            held,
            taken: AtomicU64::new(0),
            late_runs: AtomicU64::new(0),
            due_runs: AtomicU64::new(0),
            withdrawn: AtomicU64::new(0),
            reported: AtomicU64::new(0),
            missed: AtomicU64::new(0),
        }
    }

    fn wait(&self, number: &AtomicU64) {
        if !comes(number, MOST_LOOKS) {
            self.missed.store(1, Ordering::SeqCst);
        }
    }

    fn at_job(&self) {
        self.wait(&self.taken);
    }

    fn at_take(&self, node: u32) {
        if node == DUE {
            self.taken.store(1, Ordering::SeqCst);
            self.wait(if self.held == LATE {
                &self.late_runs
            } else {
                &self.due_runs
            });
        }
    }

    fn at_run(&self, node: u32) {
        if node == LATE {
            let _before = self.late_runs.fetch_add(1, Ordering::SeqCst);
        } else {
            let _before = self.due_runs.fetch_add(1, Ordering::SeqCst);
        }
        if node == self.held {
            self.wait(if node == LATE {
                &self.reported
            } else {
                &self.withdrawn
            });
        }
    }

    /// Whether all came that a hand was held for, and the callbacks ran so often.
    fn saw(&self, late_runs: u64, due_runs: u64) -> bool {
        self.missed.load(Ordering::SeqCst) == 0
            && self.withdrawn.load(Ordering::SeqCst) == 1
            && self.late_runs.load(Ordering::SeqCst) == late_runs
            && self.due_runs.load(Ordering::SeqCst) == due_runs
    }
}

impl Gate for Seen {
    fn pass(&self, point: Point) {
        match point {
            Point::Job { number: _, node: _ } => self.at_job(),
            Point::Take(name) => self.at_take(name.node),
            Point::Run(name) => self.at_run(name.node),
            Point::Withdraw(name) if name.node == DUE => self.withdrawn.store(1, Ordering::SeqCst),
            Point::Report(name) if name.node == DUE => self.reported.store(1, Ordering::SeqCst),
            _ => {}
        }
    }
}

/// One record of it.
const TRIAL: Trial<'static> = Trial {
    settings: "",
    root: ROOT,
    window: 1,
    count: 1,
};

/// Whether the callbacks ran so often in each run, of which this one was held.
fn is_forced<R: Threads + Wait + Sync>(
    rt: &R,
    alloc: Global,
    held: u32,
    late_runs: u64,
    due_runs: u64,
) -> bool
    requires { IsSync R.row }
{
    let line = "records 1 values 0 errors 1 stopped 0 out-of-memory 0 bad 0 sum 0\n";
    for _run in 0..RUNS {
        let gate = Seen::new(held);
        let written = writes(rt, alloc, TRIAL, ONE, &gate, &[line]);
        if !written || !gate.saw(late_runs, due_runs) {
            return false;
        }
    }
    true
}

#[test]
fn a_callback_that_runs_while_it_is_removed_ran_once(rt: HostRuntime) {
    assert!(rt; is_forced(&rt, rt.alloc(), DUE, 1, 1));
}

#[test]
fn a_callback_that_is_removed_before_the_scan_comes_to_it_never_runs(rt: HostRuntime) {
    assert!(rt; is_forced(&rt, rt.alloc(), LATE, 1, 0));
}
