//! The law of preservation over all events, and what follows from it for every list of moves of
//! all hands.
//!
//! It stands on `life_rules`, which has the definitions, and on the crates that prove the law for
//! the steps of an operation's life, of stop sources and of scopes. It has no code: each function's
//! contract is a law over the definitions alone, for every tree, number of blocks and hands, and
//! every order of their steps.
#![tactic(auto)]

mod callbacks;
mod operations;
mod scopes;
mod soundness;

pub use callbacks::callbacks_run_once;
pub use operations::operations_end_once;
pub use scopes::scopes_join_once;
pub use soundness::sound_is_kept;
