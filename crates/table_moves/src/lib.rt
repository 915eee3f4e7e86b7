//! Each step of the running table's calls is one move of the pure machine: in every table that
//! keeps the rule, what the words and views show before it lets the hand make the move, and what
//! they show after it is what the move gives.
//!
//! It stands on table_rules and table_steps: a law takes what a call asks and tells, the word that
//! was read and the one that was left. So a test, or another runtime over the same words, may rest
//! on the pure machine's laws. It has no code, and no crate stands on it.
#![tactic(auto)]

mod stepping;

pub use stepping::{
    block_steps_are_moves, callback_steps_are_moves, scan_steps_are_moves, scope_steps_are_moves,
    source_steps_are_moves, steps_are_moves,
};
