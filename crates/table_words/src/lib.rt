//! The words of a running table as numbers, and where each of them lies.
//!
//! It stands on life_rules, whose words these numbers show. Each word is a `u64` that one atomic
//! step reads and writes whole. To write a word and to read it again are proved to be exact, and no
//! two words lie at one index.
//!
//! # The bits of a word
//!
//! | word | bits 32 to 63 | bits 0 to 31 |
//! |---|---|---|
//! | block | generation | 0 free, 1 open, 2 retired |
//! | control | generation | 0 idle, 1 done, 2 ready in the loop, 3 ready in the pool, 4 parked, 5 +
//! p busy with p pending |
//! | callback | generation | 0 never, 1 armed, 2 running, 3 ran, 4 removed |
//! | source | generation | bit 0 requested, bit 1 failed, bit 2 scanned |
//! | scope source | 0 | as a source |
//! | scope | bit 32 used, 33 closed, 34 joining, 35 joined | the count of associations |
//!
//! A busy word's pending is the lowest part, so that a report is a plain subtraction of 1.
#![tactic(auto)]

mod block;
mod halves;
mod law;
mod layout;
mod place;
mod scope;

pub use block::{block_number, read_block};
pub use halves::{stamp, words_are_exact};
pub use law::scope_words_lie_so;
pub use layout::{Layout, SCOPE, SCOPE_SOURCE, spots_are_apart};
pub use place::{
    callback_number, control_number, read_callback, read_control, read_source, source_number,
};
pub use scope::{read_scope, scope_number};
