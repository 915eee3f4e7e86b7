//! Plans in the notation of senders: a text is read as a plan file's JSON, and a plan is written as
//! a text.
//!
//!     text --tokens_of--> tokens --Machine::step--> JSON, and where each node stands
#![tactic(auto)]

mod adaptors;
mod arguments;
mod assembled;
mod constant;
mod frame;
mod grammar;
mod joined;
mod machine;
mod names;
mod nodes;
mod reading;
mod said;
mod senders;
mod steps;
mod wanted;
mod words;
mod writing;
mod written;

pub use frame::Spot;
pub use grammar::wanted_words;
pub use reading::{Read, read_text};
pub use wanted::{Fault, Refusal, Wanted};
pub use writing::notation_of;
