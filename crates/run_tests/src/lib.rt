//! Tests of whole_run: which layer runs a plan's records, what it makes of them, and how it leaves
//! its table.
//!
//! They stand here since a crate with tests is proved twice.
#![tactic(auto)]

#[cfg(test)]
mod tests;
