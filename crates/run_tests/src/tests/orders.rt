//! In which order a worker goes on with names of which it has several.
ghost use Rattle.std.specs.Thread.{IsSync};

use super::crews::{MOST_LOOKS, ONE, RUNS, Team, Trial, writes};
use exec_recv::{Gate, Point};
use run_workers::Order;
use std::alloc::Global;
use std::sync::Wait;
use std::sync::atomic::{AtomicU64, Ordering};
use std::thread::{Threads, yield_now};

/// A job of each record on the pool, and one on the loop.
const TRIAL: Trial<'static> = Trial {
    settings: "",
    root: r#"{"do":"then","job":{"job":"sum"},
        "child":{"do":"when_all","children":[
                {"do":"starts_on","on":"pool",
                    "child":{"do":"then","child":{"do":"input"},
                        "job":{"job":"give","values":[1]}}},
                {"do":"starts_on","on":"loop",
                    "child":{"do":"then","child":{"do":"input"},
                        "job":{"job":"give","values":[2]}}}]}}"#,
    window: 8,
    count: 8,
};

/// The nodes of these jobs.
const ON_POOL: u32 = 1;

const ON_LOOP: u32 = 4;

/// A gate that holds the first job of the pool until the loop came to its job of each record, and
/// the last of these until the worker came to each job of the pool, so that hand 0 runs none of
/// them. It reads in which order the records come to the pool.
#[derive(Drop)]
struct Ordered {
    on_pool: AtomicU64,
    on_loop: AtomicU64,
    /// The record whose job of the pool was the last.
    last: AtomicU64,
    /// How often a record came to the pool after a later one.
    falls: AtomicU64,
    /// A job went on without what it was held for.
    missed: AtomicU64,
}

impl Ordered {
    fn new() -> Ordered {
        Ordered {
            on_pool: AtomicU64::new(0),
            on_loop: AtomicU64::new(0),
            last: AtomicU64::new(0),
            falls: AtomicU64::new(0),
            missed: AtomicU64::new(0),
        }
    }

    fn hold(&self, until: &AtomicU64) {
        for _look in 0..MOST_LOOKS {
            if until.load(Ordering::SeqCst) == 8 {
                return;
            }
            yield_now();
        }
        self.missed.store(1, Ordering::SeqCst);
    }

    fn comes_to_loop(&self) {
        if self.on_loop.fetch_add(1, Ordering::SeqCst) == 7 {
            self.hold(&self.on_pool);
        }
    }

    // One worker comes here, so nothing comes between its reads and its stores.
    fn comes(&self, number: u32) {
        if self.on_pool.fetch_add(1, Ordering::SeqCst) == 0 {
            self.hold(&self.on_loop);
        }
        let number = u64::from(number);
        if number < self.last.load(Ordering::SeqCst) {
            let _before = self.falls.fetch_add(1, Ordering::SeqCst);
        }
        self.last.store(number, Ordering::SeqCst);
    }

    fn saw(&self, falls: bool) -> bool {
        self.missed.load(Ordering::SeqCst) == 0
            && self.on_pool.load(Ordering::SeqCst) == 8
            && (self.falls.load(Ordering::SeqCst) != 0) == falls
    }
}

impl Gate for Ordered {
    fn pass(&self, point: Point) {
        match point {
            Point::Job { number, node } if node == ON_POOL => self.comes(number),
            Point::Job { number: _, node } if node == ON_LOOP => self.comes_to_loop(),
            _ => {}
        }
    }
}

/// Whether a worker takes names in this order in each run: a record comes to the pool after a later
/// one, or never.
fn is_taken_in<R: Threads + Wait + Sync>(rt: &R, alloc: Global, order: Order, falls: bool) -> bool
    requires { IsSync R.row }
{
    let line = "records 8 values 8 errors 0 stopped 0 out-of-memory 0 bad 0 sum 24\n";
    for _run in 0..RUNS {
        let gate = Ordered::new();
        let written = writes(rt, alloc, TRIAL, Team { order, ..ONE }, &gate, &[line]);
        if !written || !gate.saw(falls) {
            return false;
        }
    }
    true
}

#[test]
fn a_worker_takes_names_in_the_order_of_its_backend(rt: HostRuntime) {
    assert!(rt; is_taken_in(&rt, rt.alloc(), Order::Fifo, false));
    assert!(rt; is_taken_in(&rt, rt.alloc(), Order::Lifo, true));
}
