//! What is said of a trace: which entry is refused, why, and since when; or what is open at its
//! end.
//!
//!     Trace --check_trace--> Verdict
//!     a refused entry --state_at, reason_of--> Fact --since--> the entry that made it so --> a
//!     sentence a trace whose entries are all steps --state_at--> what is open --> a sentence
//!
//! It stands on replay_core, which judges a trace, and on step_reasons, which says why a step may
//! not be taken. So the sentence is exactly that of the first need that doesn't hold, and what it
//! says has been so in each state since the entry that it names. Want of memory is the only fault.
#![tactic(auto)]

mod open;
mod places;
mod put;
mod sentence;
mod since;
mod telling;
mod walk;

pub use telling::{Explained, explain};
