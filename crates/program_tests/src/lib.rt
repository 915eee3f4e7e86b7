//! Tests of the programs: of exec_words, exec_status, trace_commands, exec_engine, join_commands.
//!
//! They stand here since a crate with tests is proved twice. What a command does where no call
//! fails is data for the program, in tests/cases/.
#![tactic(auto)]

#[cfg(test)]
mod tests;
