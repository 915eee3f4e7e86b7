//! Joins what runs over parts of a stream wrote, to what one run over all of it would write.
//!
//! The program is `join_commands::join` over the files of the system and its standard streams. The
//! adapters tell nothing of what these hold: that the system does as it says is taken on trust.
#![tactic(auto)]

mod folder;

use crate::folder::FileFolder;
use join_commands::{Status, join};
use std::alloc::AllocError;
use std::io::BufWriter;
use std::process::ExitCode;
use std_streams::{Writing, words_of_command};

/// How many bytes of output are kept back at most.
const OUT_BYTES: usize = 65_536;

fn main(rt: HostRuntime) -> ExitCode {
    let status = join_words(&rt).unwrap_or(Status::NoMemory);
    ExitCode::from(status.code())
}

/// Joins what the program's words ask for. The one error comes before anything is read.
fn join_words(rt: &HostRuntime) -> Result<Status, AllocError> {
    let alloc = rt.alloc();
    let owned = words_of_command(rt)?;
    let words: Vec<&str> = owned.iter().map(|word| word.as_str()).collect(alloc)?;
    let buffer = BufWriter::with_capacity(alloc, OUT_BYTES, rt.stdout());
    let mut out = Writing::new(buffer.map_err(|_| AllocError)?);
    let mut notes = Writing::new(rt.stderr());
    let mut folder = FileFolder::new(rt);
    let status = join(alloc, &words, &mut folder, &mut out, &mut notes);
    // What a failed write left in the buffer isn't written any more.
    let _ = out.into_inner().into_parts();
    Ok(status)
}
