//! Runs any plan for each line of standard input, by the library: `any_plan PLAN`.
//!
//! It is the least program over `run_text` of by_example, which has the promise: it reads the
//! plan's file, makes a crew, and tells in words how the run ended. docs/LIBRARY.md goes through
//! it. That files and streams of the system do as they say is taken on trust (std_streams).
//!
//!     words --> the plan's file --run_text--> lines on standard output, and how the run ended
#![tactic(auto)]

#[cfg(test)]
mod tests;

use anyhow::{Context, Result, bail};
use by_example::run_text;
use pool_backends::{Backend, Order, RingBackend};
use record_lines::End;
use run_workers::Crew;
use std::fs;
use std::io::BufWriter;
use std_streams::{Reading, Writing, words_of_command};

/// How many workers serve the pool.
const WORKERS: u32 = 2;

/// How many names a worker's ring has room for.
const RING_NAMES: u32 = 64;

fn main(rt: HostRuntime) -> Result<()> {
    let alloc = rt.alloc();
    let words = words_of_command(&rt)?;
    let [name] = words.as_slice() else {
        bail!("usage: any_plan PLAN");
    };
    let text = fs::read(&rt, name.as_str()).context("the plan can't be read")?;
    let mut backends: Vec<Box<dyn Backend + Send>> = Vec::new(alloc);
    for made in 0..WORKERS {
        backends.push(Box::new(alloc, RingBackend::new(alloc, RING_NAMES)?)?)?;
    }
    let crew = Crew {
        workers: WORKERS,
        helps: true,
        order: Order::Fifo,
        backends,
    };
    let mut records = Reading::new(rt.stdin());
    let mut out = Writing::new(BufWriter::new(alloc, rt.stdout())?);
    let account = run_text(&rt, alloc, &text, crew, &mut records, &mut out)?;
    let ending = account.ending;
    // What a failed write left in the buffer isn't written any more.
    let _ = out.into_inner().into_parts();
    if ending.is_lost() {
        bail!("a write failed");
    }
    match ending.end() {
        End::Ended => Ok(()),
        End::Fault => bail!("a read failed"),
        End::Limit => bail!("there are more lines than a run takes"),
    }
}
