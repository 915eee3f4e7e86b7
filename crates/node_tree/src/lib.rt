//! The tree of an operation's nodes, checked once, and the stop source that each node hears; and
//! the small types that plans and running operations share: contexts, lists of nodes, kinds of
//! scopes.
//!
//! specs/Tree says what a tree is. A `Tree` that was opened keeps the rules, so nothing above tests
//! them again. It stands on common_lemmas, whose lemmas its proofs cite.
#![tactic(auto)]

mod context;
mod fault;
mod law;
mod nearest;
mod node;
mod node_list;
mod scope_kind;
mod tree;

pub use context::Context;
pub use law::limits_are_told;
pub use nearest::NearestSource;
pub use node::{MOST_NODES, TreeNode};
pub use node_list::NodeList;
pub use scope_kind::ScopeKind;
pub use tree::{Tree, TreeFault};
