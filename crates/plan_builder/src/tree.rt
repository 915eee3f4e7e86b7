//! The tree of a builder's nodes, once there is one root.
ghost use Rattle.std.specs.Prelude.{◌≡◌, length, IfOk};
ghost use Rattle.plan_shape.specs.Finish.{passes};
ghost use Rattle.plan_shape.specs.Parents.{parent_of};
ghost use Rattle.plan_shape.specs.PlanTree.{is_unstoppable, is_when_all, parent_in_tree, spawns, tree_node, tree_of};

use crate::builder::PlanBuilder;
use crate::named::node_at;
use node_tree::TreeNode;
use plan_rules::{Node, NodeId};
use std::alloc::AllocError;

// Whether a node is an `ahead` whose first child this is.
fn spawns(nodes: &[Node], node: NodeId, child: NodeId) -> bool
    ensures { result ≡ passes (spawns child) nodes.now node }
{
    match node_at(nodes, node) {
        Some(found) => match found {
            Node::Ahead { first, .. } => *first == child,
            _ => false,
        },
        None => false,
    }
}

// Whether a node is a `when_all`.
fn is_when_all(nodes: &[Node], node: NodeId) -> bool
    ensures { result ≡ passes is_when_all nodes.now node }
{
    match node_at(nodes, node) {
        Some(found) => matches!(found, Node::WhenAll { .. }),
        None => false,
    }
}

// Whether a node is `unstoppable`.
fn is_unstoppable(nodes: &[Node], node: NodeId) -> bool
    ensures { result ≡ passes is_unstoppable nodes.now node }
{
    match node_at(nodes, node) {
        Some(found) => matches!(found, Node::Unstoppable { .. }),
        None => false,
    }
}

impl PlanBuilder {
    /// A node's parent, if it has one.
    pub(crate) fn parent(&self, node: NodeId) -> Option<NodeId>
        ensures { result ≡ parent_of self.now node }
    {
        match self.positions.get(node as usize) {
            None => None,
            Some(position) => position.parent,
        }
    }

    // A node's parent in the tree.
    fn parent_in_tree(&self, node: NodeId) -> NodeId
        ensures { result ≡ parent_in_tree self.now node }
    {
        let receiver = self.nodes.len() as u32;
        match self.parent(node) {
            Some(parent) if !spawns(&self.nodes, parent, node) => parent,
            _ => receiver,
        }
    }

    // A node in the tree.
    fn tree_node(&self, node: NodeId) -> TreeNode
        ensures { result ≡ tree_node self.now node }
    {
        TreeNode {
            parent: Some(self.parent_in_tree(node)),
            source: is_when_all(&self.nodes, node),
            unstoppable: is_unstoppable(&self.nodes, node),
        }
    }

    /// The nodes of the tree, and the receiver node behind them.
    pub(crate) fn tree_nodes(&self) -> Result<Vec<TreeNode>, AllocError>
        ensures { IfOk result (λ tree. tree.items ≡ tree_of self.now) }
    {
        let size = self.nodes.len();
        let mut tree = Vec::with_capacity(*self.nodes.allocator(), size + 1)?;
        for node in 0..size {
            tree.push(self.tree_node(node as u32))?;
        }
        tree.push(TreeNode {
            parent: None,
            source: false,
            unstoppable: false,
        })?;
        Ok(tree)
    }
}
