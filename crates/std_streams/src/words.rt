//! The words that a program is called with.
use std::alloc::AllocError;
use std::env;
use std::io::ErrorKind;
use std::rt::Env;

/// The words after the program's name. A command line with a word that isn't UTF-8 is faulty, and
/// so is one without words, which is the answer then.
pub fn words_of_command<R: Env + AllocGlobal>(rt: &R) -> Result<Vec<String>, AllocError> {
    match env::args(rt) {
        Ok(all) => all.skip(1).collect(rt.alloc()),
        Err(error) if error.kind() == ErrorKind::OutOfMemory => Err(AllocError),
        Err(_) => Ok(Vec::new(rt.alloc())),
    }
}
