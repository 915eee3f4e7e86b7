//! Tests of plans: of plan_builder, sig_check, plan_settle, plan_reader, plan_writer and
//! plain_runs.
//!
//! They stand here since a crate with tests is proved twice. What plans complete with, and which
//! are refused, is data for the program, in tests/cases/.
#![tactic(auto)]

#[cfg(test)]
mod tests;
