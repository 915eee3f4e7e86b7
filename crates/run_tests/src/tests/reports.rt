//! A callback's run that is held until a child is reported: a record is stopped, or it isn't.
ghost use Rattle.std.specs.Thread.{IsSync};

use super::crews::{MOST_LOOKS, RUNS, Trial, four, writes};
use super::unlawful::Way;
use exec_recv::{Gate, Point};
use std::alloc::Global;
use std::sync::Wait;
use std::sync::atomic::{AtomicU64, Ordering};
use std::thread::{Threads, yield_now};

/// The first of two records is started before a stop is requested, and the second after it.
const TRIAL: Trial<'static> = Trial {
    settings: r#""stop_after":2,"#,
    root: r#"{"do":"then","child":{"do":"when_all",
            "children":[{"do":"starts_on","on":"pool","child":{"do":"input"}},
                {"do":"just","values":[1]}]},"job":{"job":"sum"}}"#,
    window: 2,
    count: 2,
};

/// The node of the hop.
const HOP: u32 = 1;

/// A gate that holds each run of a callback until the hop of the same operation is reported.
#[derive(Drop)]
struct Reported {
    /// A bit for each block whose hop was reported.
    blocks: AtomicU64,
    /// A run went on without that report.
    missed: AtomicU64,
}

impl Reported {
    fn has(&self, block: u32) -> bool {
        self.blocks.load(Ordering::SeqCst) & 1u64.wrapping_shl(block) != 0
    }

    fn hold(&self, block: u32) {
        for _look in 0..MOST_LOOKS {
            if self.has(block) {
                return;
            }
            yield_now();
        }
        self.missed.store(1, Ordering::SeqCst);
    }
}

impl Gate for Reported {
    fn pass(&self, point: Point) {
        match point {
            Point::Run(name) => self.hold(name.block),
            Point::Report(name) if name.node == HOP => {
                let bit = 1u64.wrapping_shl(name.block);
                let _before = self.blocks.fetch_or(bit, Ordering::SeqCst);
            }
            _ => {}
        }
    }
}

/// Whether one of these lines is written in each run, and each callback's run came to the report
/// that it was held for.
fn is_held<R: Threads + Wait + Sync>(rt: &R, alloc: Global, lines: &[&str]) -> bool
    requires { IsSync R.row }
{
    for _run in 0..RUNS {
        let gate = Reported {
            blocks: AtomicU64::new(0),
            missed: AtomicU64::new(0),
        };
        let written = writes(rt, alloc, TRIAL, four(Way::None), &gate, lines);
        if !written || gate.missed.load(Ordering::SeqCst) != 0 {
            return false;
        }
    }
    true
}

#[test]
fn a_stop_whose_callback_runs_after_the_report_stops_the_record_or_not(rt: HostRuntime) {
    let lines = [
        "records 2 values 1 errors 0 stopped 1 out-of-memory 0 bad 0 sum 7937\n",
        "records 2 values 0 errors 0 stopped 2 out-of-memory 0 bad 0 sum 0\n",
    ];
    assert!(rt; is_held(&rt, rt.alloc(), &lines));
}
