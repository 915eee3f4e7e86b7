//! Tests of the steps of nodes: each kind, from the start of an operation over a table of one block
//! to what is collected.
//!
//! They stand on run_loop, which starts and collects, and in a crate of their own, since a crate
//! that has tests is proved twice.
#![tactic(auto)]

#[cfg(test)]
mod tests;
