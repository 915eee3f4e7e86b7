//! What the steps read of a table's frame.
use node_tree::{ScopeKind, Tree};
use table_words::Layout;

/// A table's frame but for what the table was opened over, which only its key has: so threads may
/// share it whatever that is.
#[derive(Drop)]
pub struct Shape {
    pub tree: Tree,
    pub layout: Layout,
    pub hands: u32,
    pub kind: ScopeKind,
    pub most: u32,
}
