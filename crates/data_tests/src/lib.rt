//! Tests of data: what is read and written, values and their lines, jobs, lines of records,
//! summaries, and the timer wheel.
//!
//! They stand here since a crate with tests is proved twice. What the program can show of these
//! crates is data for it, in tests/cases/.
#![tactic(auto)]

#[cfg(test)]
mod tests;
