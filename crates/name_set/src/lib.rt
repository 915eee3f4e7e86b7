//! A set of names of a table's places, those of one block at one generation.
//!
//! It stands on table_words, which numbers the places. It takes its room when it is made, a bit for
//! each place and a generation for each block, at most 34 KB; no later call takes memory.
#![tactic(auto)]

mod marks;
mod set;

pub use set::NameSet;
