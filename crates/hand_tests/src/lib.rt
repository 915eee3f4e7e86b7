//! Tests of futures: how they are spawned, polled, abandoned and swept.
//!
//! They stand on spawn_future, and in a crate of their own, since a crate that has tests is proved
//! twice.
#![tactic(auto)]

#[cfg(test)]
mod tests;
