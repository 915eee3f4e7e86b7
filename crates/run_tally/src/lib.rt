//! What was collected of operations: a list that contracts read, and four numbers that a program
//! reads.
//!
//! It stands on exec_value, plan_shape and, for the name of a table, atomic_table. `Counts` keeps
//! its promise by itself: the numbers are those of the list. Who may add to a list is settled
//! above: the tally of a loop (run_loop) has such counts, and only a loop adds to them, what it
//! collects.
#![tactic(auto)]

mod counts;
mod log;

pub use counts::{Counts, Placed};
pub use log::{Lists, Log};
