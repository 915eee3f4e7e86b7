//! The test whether a list of nodes is a tree.
ghost use Rattle.std.specs.Prelude.{◌≡◌, ◌<◌, ◌≤◌, length, MatchOption};
ghost use Rattle.node_tree.specs.Tree.{has_place, is_node, IsTree, IsFirstFault};

use crate::node::{MOST_NODES, TreeNode};

// A node has a parent of greater number exactly where it isn't the root.
fn has_place(nodes: &[TreeNode], node: usize) -> bool
    requires { node < length nodes.now }
    ensures { result ≡ has_place nodes.now node }
{
    let is_root = node + 1 == nodes.len();
    match nodes[node].parent {
        None => is_root,
        Some(parent) => node < parent as usize && (parent as usize) < nodes.len(),
    }
}

fn is_node(nodes: &[TreeNode], node: usize) -> bool
    requires { node < length nodes.now }
    ensures { result ≡ is_node nodes.now node }
{
    let marks = nodes[node];
    has_place(nodes, node) && node < MOST_NODES && !(marks.source && marks.unstoppable)
}

/// The first node that breaks a rule of trees, 0 for an empty list, or none.
pub fn first_fault(nodes: &[TreeNode]) -> Option<u32>
    ensures { MatchOption result (IsTree nodes.now) (IsFirstFault nodes.now) }
{
    if nodes.is_empty() {
        return Some(0);
    }
    for node in 0..nodes.len() {
        if !is_node(nodes, node) {
            return Some(node as u32);
        }
    }
    None
}
