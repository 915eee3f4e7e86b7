//! Runs a plan over records, read or generated, and writes a line for each or one for all; judges a
//! trace, or replays a schedule.
//!
//! The program is `exec_engine::run` over the files of the system and its standard streams. The
//! adapters of std_streams tell nothing of what these hold: that the system does as it says is
//! taken on trust.
#![tactic(auto)]

use exec_engine::{Backend, Status, System, Tally, run};
use exec_recv::OpenGate;
use exec_words::MOST_WORKERS;
use pool_backends::RingBackend;
use std::alloc::Global;
use std::io::BufWriter;
use std::process::ExitCode;
use std_streams::{FileShelf, Reading, Writing, words_of_command};

/// How many bytes of output are kept back at most.
const OUT_BYTES: usize = 65_536;

/// How many names a worker's ring has room for.
const RING_NAMES: u32 = 256;

fn main(rt: HostRuntime) -> ExitCode {
    let alloc = rt.alloc();
    let Ok(owned) = words_of_command(&rt) else {
        return no_memory();
    };
    let Ok(words) = owned
        .iter()
        .map(|word| word.as_str())
        .collect::<Vec<&str>>(alloc)
    else {
        return no_memory();
    };
    let mut backends: Vec<Box<dyn Backend + Send>> = Vec::new(alloc);
    for made in 0..MOST_WORKERS {
        let Some(ring) = ring(alloc) else {
            return no_memory();
        };
        let Ok(()) = backends.push(ring) else {
            return no_memory();
        };
    }
    let Ok(buffer) = BufWriter::with_capacity(alloc, OUT_BYTES, rt.stdout()) else {
        return no_memory();
    };
    let mut system = System {
        shelf: FileShelf::new(&rt),
        records: Reading::new(rt.stdin()),
        out: Writing::new(buffer),
        notes: Writing::new(rt.stderr()),
    };
    let mut tally = Tally::new();
    let status = run(
        &rt,
        alloc,
        &words,
        &mut system,
        backends,
        &OpenGate,
        &mut tally,
    );
    // What a failed write left in the buffer isn't written any more.
    let System {
        shelf: _,
        records: _,
        out,
        notes: _,
    } = system;
    let _ = out.into_inner().into_parts();
    ExitCode::from(status.code())
}

/// What the program ends with where there is no memory to begin with.
fn no_memory() -> ExitCode {
    ExitCode::from(Status::NoMemory.code())
}

/// An empty ring for a worker. None where there is no memory for it.
fn ring(alloc: Global) -> Option<Box<RingBackend>> {
    let ring = RingBackend::new(alloc, RING_NAMES).ok()?;
    Box::new(alloc, ring).ok()
}
