//! How outcomes are written as lines, and what a summary of them says.
//!
//! It stands on exec_value, whose outcomes it writes, and on exec_io, to whose sinks it writes
//! them. `put_line` appends exactly the line of the definition, or fails with cause and appends a
//! front of it. The line of one int is written from its end, and another short line is gathered
//! first: the sink gets each in one piece. No call takes memory.
#![tactic(auto)]

mod int_line;
mod law;
mod line;
mod piece;
mod put;

pub use law::text_names_outcomes;
pub use line::put_line;
