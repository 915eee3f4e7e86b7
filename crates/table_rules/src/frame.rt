//! With what a table was opened.
use node_tree::{ScopeKind, Tree};
use std::snapshot::Snapshot;
use table_words::Layout;

/// The most associations that a scope may be opened for. With one more for each hand that is being
/// refused, the count stays below the bits of the scope's word.
pub const MOST_ASSOCIATIONS: u32 = 65_535;

/// What never changes in a table, and all its hands know.
#[derive(Drop)]
pub struct Frame<O> {
    pub tree: Tree,
    pub layout: Layout,
    /// 1 to 32.
    pub hands: u32,
    pub kind: ScopeKind,
    /// The most associations that the scope takes: 1 to 65,535.
    pub most: u32,
    pub over: Snapshot<O>,
}
