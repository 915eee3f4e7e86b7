//! The library by example: one operation from its plan to its completion, and a stream of them on
//! workers, by the library's calls.
//!
//! It stands on the crates that make plans (plan_builder, sig_check), on op_table, which has
//! operations, on node_stepper, which steps their nodes, on run_loop, which runs them, and for the
//! stream on whole_run. docs/LIBRARY.md goes through it. It keeps one promise: what is answered
//! for a number is the next number, or the error `overflow`, and nothing else, whoever does the
//! work.
//!
//!     plan_adder --> plan --adder_steps: its kinds match--> steps
//!     open_one   --> table, hand --run_number--> completion, hand --close_one--> blocks are back
//!                                      |
//!                          Loop::open, sync_wait, into_hand
//!
//!     plan_pool_adder --> plan, crew --run_lines--> a line for each line
#![tactic(auto)]

mod adding;
mod any_plan;
mod fault;
mod opening;
mod planning;
mod running;
mod streaming;

pub use adding::add_one;
pub use any_plan::run_text;
pub use fault::AddFault;
pub use planning::{plan_adder, plan_pool_adder};
pub use streaming::{WINDOW, add_lines};
