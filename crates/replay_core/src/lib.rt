//! Traces and schedules on the pure machine: a trace is judged, and a schedule is made into a
//! trace.
//!
//!     text --read_trace--> Trace --check_trace--> Verdict
//!     text --read_schedule--> Schedule --replay--> Trace --write_trace--> text
//!
//! It stands on exec_life, whose steps are exactly those of the rules, and on trace_text, which
//! reads and writes the texts. So a trace is taken exactly where the rules take each of its
//! entries, and the trace of a schedule is always taken.
#![tactic(auto)]

mod candidates;
mod check;
mod grounds;
mod machine;
mod replaying;

pub use check::{Verdict, check_trace};
pub use replaying::replay;
pub use trace_text::{
    ASSOCIATIONS, BLOCKS, Choice, ENTRIES, Entry, FILE_BYTES, HANDS, NODES, Opening, Schedule,
    Trace, TraceFault, read_schedule, read_trace, write_trace,
};
