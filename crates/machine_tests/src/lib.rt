//! Tests of the crates of trees, rules, steps and traces.
//!
//! They stand here since a crate with tests is proved twice. Runs, refusals and faulty texts of all
//! kinds are data for the program, in tests/cases/machine.json.
#![tactic(auto)]

#[cfg(test)]
mod tests;
