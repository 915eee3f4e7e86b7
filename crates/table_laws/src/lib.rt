//! What follows for running hands from the rule of the table: laws of every table in which the rule
//! holds, and so between any two steps of any hands.
//!
//! It stands on table_rules, whose rule `Running` each step of op_table keeps, and on table_steps,
//! which says what its calls need. It has no code: each function's contract is laws over the
//! definitions alone, for every cargo, tree, number of blocks and hands, and every order of steps.
//! That each step is a move of the pure machine is in table_moves.
#![tactic(auto)]

mod callbacks;
mod operations;
mod scopes;
mod stepping;

pub use callbacks::callbacks_run_once;
pub use operations::{noted_operations_are_open, operations_end_once, parents_end_with_all};
pub use scopes::{joined_scopes_are_empty, scope_bits_stay};
pub use stepping::{calls_list_their_steps, listed_steps_are_made, operations_list_their_steps};
