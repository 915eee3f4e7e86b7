//! How a run of the program ends: its status, and what is told of it on notes.
//!
//!     Status --code--> the exit status of the process
//!     Status --conclude--> notes; the status that stands then
//!     a refusal --refuse--> notes
//!     a text, or a word and a number --tell, tell_numbered--> a sink
//!
//! It stands on exec_io and exec_words. What is told is written whole and handed on, or
//! a call of the sink failed and a front of it was written; notes that fail make the status a write
//! fault. No call takes memory.
#![tactic(auto)]

mod file;
mod notes;
mod status;
mod telling;

pub use file::FileFault;
pub use notes::{conclude, note_of, refuse};
pub use status::Status;
pub use telling::{tell, tell_numbered};
