//! The files, the streams and the words of the system, as programs of this repository see them.
//!
//!     files by their paths --FileShelf--> Shelf
//!     any writer of std --Writing--> Sink
//!     any reader of std --Reading--> Source
//!     the command line --words_of_command--> the words after the program's name
//!
//! The first three count their faults, and tell only what the reader or writer tells: that the
//! system does as it says is taken on trust. It stands on exec_io, which has the traits.
#![tactic(auto)]

mod faults;
mod shelf;
mod sink;
mod source;
#[cfg(test)]
mod tests;
mod words;

pub use shelf::{FileShelf, read_front};
pub use sink::Writing;
pub use source::Reading;
pub use words::words_of_command;
