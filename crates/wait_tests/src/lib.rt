//! Tests of the names in wait: backends, decks and queues, and how hands sleep.
//!
//! They stand here since a crate with tests is proved twice.
#![tactic(auto)]

#[cfg(test)]
mod tests;
