//! What a sender expression means: its nodes, the completions that it allows, and plain evaluation.
//!
//! It stands on `exec_value`, `exec_job` and `node_tree`. The definitions are in specs/: `Allowed`
//! says which completions a node may have under which stop state, `settle_of` which one plain
//! evaluation gives, `Calm` where it gives the only one, and `exclude_each_other` which settings no
//! plan has. The crates above build plans, prove the laws of these definitions and evaluate by
//! them.
#![tactic(auto)]

mod node;
mod settings;
mod stop;

pub use node::{Node, NodeId, Query};
pub use node_tree::Context;
pub use settings::Settings;
pub use stop::StopState;
