//! The summary of lines: how many of each sort there are, the exact sum of their numbers, and the
//! line that says so.
//!
//!     Outcome --Summary::count--> Summary --put_summary--> out
//!
//! It keeps that a summary is exact (`Summarizes`), and that the line is the one of the outcomes
//! that were counted. It stands on exec_io and exec_value.
#![tactic(auto)]

mod line;
mod put;
mod sorts;
mod summary;

pub use line::put_summary;
pub use sorts::is_error;
pub use summary::Summary;
