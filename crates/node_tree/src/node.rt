//! The nodes of a tree.

/// The most nodes of a tree: 1,024 of a plan, and the receiver node above them.
pub const MOST_NODES: usize = 1_025;

/// A node of a tree. Its children have smaller numbers than it has.
#[derive(Clone, Copy, Debug, PartialEq, Eq)]
pub struct TreeNode {
    /// The node above; none for the root.
    pub parent: Option<u32>,
    /// Whether it has a stop source, as a `when_all` has ([exec.when.all]).
    pub source: bool,
    /// Whether no stop request reaches below it.
    pub unstoppable: bool,
}
