//! The commands that show: `plan FILE`, `trace FILE`, `why FILE`, `write FILE` and `text FILE`.
//!
//!     words --read_words--> what is asked, and the name of a file
//!     plan:  bytes --read_plan, check, picture_of--> text of a picture --> out
//!            bytes that are no plan --refusal_of, reason_of--> a sentence --> out
//!     text:  bytes --read_plan, text_of--> the plan in the notation, or that sentence --> out
//!     write: bytes --written_of--> the plan as JSON, or a sentence --> out
//!     trace: bytes --read_trace, picture_of--> text of a picture --> out
//!     why:   bytes --read_trace, explain--> a sentence --> out
//!     a trace that is refused, a file that wasn't read, and what the status says else --> notes
//!
//! `show` is the top call. It reads its file from a shelf and writes its answer to out. It stands
//! on `trace_commands`, which says how a command on a file ends (`Ends`), and on the readers of the
//! files: what a plan, a notation or a trace is, nothing here says a second time. A file that
//! wasn't read is named after that.
#![tactic(auto)]

mod answer;
mod missing;
mod plan_answer;
mod reason;
mod showing;
mod text_answer;
mod trace_answer;
mod why_answer;
mod write_answer;

pub use exec_status::Status;
pub use showing::show;
