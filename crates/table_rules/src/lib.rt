//! The running rule: what holds of a table's words, homes and views between any two atomic steps.
//!
//! It stands on life_rules, whose pure machine the words and views show, on table_words, which says
//! how a word reads, and on listed_words, whose steps list themselves in a view. The definitions
//! are in specs/: `Running` says how words, homes and views stand to each other, and `Traced`, the
//! rule of a table, adds that no word or home came to be what it is but by a step that a hand
//! listed. The types here are for contracts alone: no value of a view is ever made, and a cargo has
//! no call.
#![tactic(auto)]

mod cargo;
mod frame;
mod law;
mod view;

pub use cargo::Cargo;
pub use frame::{Frame, MOST_ASSOCIATIONS};
pub use law::limits_are_so;
pub use view::{Held, Owed, Reported, Rooted, Scanning, View};
