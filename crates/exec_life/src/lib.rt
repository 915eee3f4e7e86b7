//! The pure machine of operations: a state, its steps, and what can be read of it.
//!
//! It stands on life_rules, which has the definitions, on life_laws, whose laws hold for every list
//! of events, and on node_tree. It keeps one promise: `State::step` is exactly the step relation,
//! and so each state is sound.
#![tactic(auto)]

mod grid;
mod life_needs;
mod life_steps;
mod parts;
mod scan_needs;
mod scan_steps;
mod scope_needs;
mod scope_steps;
mod state;
mod steps;
mod stop_needs;
mod stop_steps;
mod view;
mod words;

pub use life_laws::{callbacks_run_once, operations_end_once, scopes_join_once, sound_is_kept};
pub use life_rules::{
    Bits, BlockState, BlockWord, CallbackPhase, ControlWord, Event, MOST_BLOCKS, MOST_HANDS, Name,
    Place, Refused, Resting, ScopeState, ScopeWord, SourceAt, SourceRef, refusal, scope_state,
};
pub use node_tree::{MOST_NODES, NearestSource, NodeList, ScopeKind, Tree, TreeFault, TreeNode};
pub use state::{State, opening};
pub use view::View;
pub use words::Words;
