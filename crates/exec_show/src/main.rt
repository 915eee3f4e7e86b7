//! Shows a plan as a picture, or says why there is none.
//!
//! The program is `picture_commands::show` over the files of the system and its standard streams.
//! The adapters of std_streams tell nothing of what these hold: that the system does as it says is
//! taken on trust.
#![tactic(auto)]

use picture_commands::{Status, show};
use std::alloc::AllocError;
use std::io::BufWriter;
use std::process::ExitCode;
use std_streams::{FileShelf, Writing, words_of_command};

/// How many bytes of output are kept back at most.
const OUT_BYTES: usize = 65_536;

fn main(rt: HostRuntime) -> ExitCode {
    let status = show_words(&rt).unwrap_or(Status::NoMemory);
    ExitCode::from(status.code())
}

/// Shows what the program's words ask for. The one error comes before anything is read.
fn show_words(rt: &HostRuntime) -> Result<Status, AllocError> {
    let alloc = rt.alloc();
    let owned = words_of_command(rt)?;
    let words: Vec<&str> = owned.iter().map(|word| word.as_str()).collect(alloc)?;
    let buffer = BufWriter::with_capacity(alloc, OUT_BYTES, rt.stdout());
    let mut out = Writing::new(buffer.map_err(|_| AllocError)?);
    let mut notes = Writing::new(rt.stderr());
    let mut shelf = FileShelf::new(rt);
    let status = show(alloc, &words, &mut shelf, &mut out, &mut notes);
    // What a failed write left in the buffer isn't written any more.
    let _ = out.into_inner().into_parts();
    Ok(status)
}
