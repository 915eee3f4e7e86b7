//! Facts on tests, sums and lists that are about no crate's own types, each stated once.
//!
//! specs/ has the few words that std lacks: the number of a test, a sum below a number, and lists
//! of different numbers. There is no code. It stands on no other crate.
#![tactic(auto)]
