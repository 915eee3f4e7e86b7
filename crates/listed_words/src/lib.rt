//! The steps of a table of atomic words, each of which lists itself.
//!
//! It stands on atomic_table alone. A hand has a view, which the caller chooses, and in that view a
//! list of the hand's own steps, newest first. Each step here puts exactly one entry in front of
//! that list: which word it was, what it read there, and what it left there. Nothing else does: a
//! split and a join leave the lists alone. So whoever reads the list knows what was done, whatever
//! else a caller's Play says of view and slots.
//!
//! The bodies that list a step reach the words only through `Words`, whose calls are single steps
//! of a hand: so they can't look at a word in a way that no list has. Each call of `Words` is one
//! call of atomic_table.
//!
//!     load .. fetch_sub    entry read left :: steps
//!     split                steps, and a fresh list for the new hand
//!     join                 steps
#![tactic(auto)]

mod hand;
mod kinds;
mod lends;
mod listing;
mod lists;
mod seen;
mod steps;
mod table;
mod words;

pub use hand::Hand;
pub use lists::Lists;
pub use seen::Seen;
pub use table::StepTable;
