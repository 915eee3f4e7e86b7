//! The rules of running operations: words, views, steps, and the law that keeps them sound.
//!
//! It stands on node_tree, whose definitions say what a tree of operations is. The definitions are
//! in specs/: `Step` is the step relation and `Sound` what holds between any two steps. The crates
//! above prove that `Sound` is kept, run a state by these rules, and run a table of atomic words by
//! them.
#![tactic(auto)]

mod event;
mod law;
mod limits;
mod scope;
mod scope_word;
mod words;

pub use event::{Event, Name, Place, Resting, SourceAt, SourceRef};
pub use law::limits_are_told;
pub use limits::{MOST_BLOCKS, MOST_HANDS};
pub use scope::{Refused, ScopeState, ScopeWord};
pub use scope_word::{refusal, scope_state};
pub use words::{Bits, BlockState, BlockWord, CallbackPhase, ControlWord};
