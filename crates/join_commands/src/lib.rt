//! The commands that join what runs over parts wrote: `lines [--dealt] PART..` and `summary
//! PART..`.
//!
//!     words --read_words--> what is asked, and the names of the parts
//!     PART.status, PART.out --look_through--> how many lines of which sorts; or why it is refused
//!     PART.out --put_part--> its lines, numbered on --> out
//!     PART.out --read_summary--> its numbers --add--> one summary --> out
//!     a part that is refused, and what else stands of the status --> notes
//!
//! `join` is the top call. It looks through all parts before it writes a line, so nothing is
//! written where one isn't whole. It stands on part_lines, which reads the lines of a part, and on
//! exec_status.
#![tactic(auto)]

mod ask;
mod fault;
mod front;
mod joining;
mod lines;
mod look;
mod names;
mod reading;
mod refusal;
mod status;
mod summary;
mod turns;

pub use ask::MOST_PARTS;
pub use exec_status::Status;
pub use joining::join;
