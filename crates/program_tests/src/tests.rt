//! The tests, by what they use, and the objects in memory that they share.
mod all_on_one_thread;
mod always_out_of_memory;
mod asked;
mod backends;
mod closings;
mod crews;
mod engine;
mod faults;
mod joins;
mod statuses;
mod words;

use exec_io::{MemShelf, MemSink, MemSource};
use std::alloc::{AllocError, Global};

/// A sink that takes at most `most` bytes a write, and fails at the calls of these numbers.
fn sink(alloc: Global, most: usize, fails: &[u64]) -> Result<MemSink, AllocError> {
    Ok(MemSink::new(alloc, most, fails.to_vec(alloc)?))
}

/// A shelf that has this text under this name, and fails at the calls of these numbers.
fn shelf(alloc: Global, name: &str, text: &[u8], fails: &[u64]) -> Result<MemShelf, AllocError> {
    let names = vec![in alloc; String::from_str(alloc, name)?]?;
    let texts = vec![in alloc; text.to_vec(alloc)?]?;
    Ok(MemShelf::new(names, texts, fails.to_vec(alloc)?))
}

/// A source of these bytes, of which the reads of these numbers fail.
fn source(alloc: Global, bytes: &[u8], fails: &[u64]) -> Result<MemSource, AllocError> {
    let bytes = bytes.to_vec(alloc)?;
    let fails = fails.to_vec(alloc)?;
    Ok(MemSource::new(bytes, fails))
}
