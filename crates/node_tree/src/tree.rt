//! A tree of nodes that keeps its rules.
ghost use Rattle.std.specs.Prelude.{◌≡◌, ◌<◌, ◌≤◌, ◌↔◌, ℕ, length, slice_get, Some, Ok, Err, IfOk, OnOk};
ghost use Rattle.node_tree.specs.Tree.{IsTree, IsFirstFault, nearest};
ghost use Rattle.node_tree.specs.Nearest.{read, IsSourceOf};

use crate::fault::first_fault;
use crate::nearest::{NearestSource, nearest_sources};
use crate::node::{MOST_NODES, TreeNode};
use std::alloc::{AllocError, Global};
use std::error::Error;
use std::fmt;
use std::marker::Model;

/// Why there is no tree of a list of nodes.
#[derive(Clone, Copy, Debug, PartialEq, Eq)]
pub enum TreeFault {
    /// This is the first node that breaks a rule of trees; 0 for an empty list.
    Shape(u32),
    /// There was no memory for the tree.
    NoMemory,
}

impl fmt::Display for TreeFault {
    fn fmt<W: fmt::Write>(&self, f: &mut fmt::Formatter<W>) -> fmt::Result {
        match self {
            TreeFault::Shape(node) => write!(f, "node {node} breaks a rule of trees"),
            TreeFault::NoMemory => write!(f, "no memory for the tree"),
        }
    }
}

impl Error for TreeFault {}

/// A tree of operations, seen as the list of its nodes: at least one, at most `MOST_NODES`. Each
/// node but the last, the root, has a parent of greater number.
#[derive(Debug, Drop)]
pub struct Tree {
    nodes: Vec<TreeNode>,
    /// The nearest source of each node, so that no walk is made for it.
    nearest: Vec<NearestSource>,
}

impl Model for Tree {
    ghost use Rattle.std.specs.Prelude.{List};
    ghost use Rattle.node_tree.specs.declared.node.TreeNode.{TreeNode};
    ghost use Rattle.node_tree.specs.Nearest.{IsTreeWith};

    ghost Value = { List TreeNode };

    ghost view = { λ tree. tree.nodes.items };

    ghost invariant = { λ tree. IsTreeWith tree.nodes.items tree.nearest.items };
}

impl Clone for Tree {
    ghost is_clone = { λ tree copy. copy ≡ tree };

    fn clone(&self) -> Result<Tree, AllocError> {
        Ok(Tree {
            nodes: self.nodes.clone()?,
            nearest: self.nearest.clone()?,
        })
    }
}

impl Tree {
    /// The tree of these nodes. It fails with `Shape` where they are no tree, before it takes
    /// memory.
    pub fn open(alloc: Global, nodes: Vec<TreeNode>) -> Result<Tree, TreeFault>
        ensures nodes { IfOk result (λ tree. tree ≡ nodes.items) }
        ensures tree { OnOk result (IsTree nodes.items) }
        ensures shape { (n : ℕ) →
            (result ≡ Err (TreeFault.Shape n)) ↔ IsFirstFault nodes.items n }
        ensures no_memory { result ≡ Err TreeFault.NoMemory → IsTree nodes.items }
    {
        if let Some(node) = first_fault(&nodes) {
            return Err(TreeFault::Shape(node));
        }
        match nearest_sources(alloc, &nodes) {
            Ok(nearest) => Ok(Tree { nodes, nearest }),
            Err(AllocError) => Err(TreeFault::NoMemory),
        }
    }

    /// The number of nodes.
    pub fn size(&self) -> u32
        ensures size { result ≡ length self.now }
        ensures bound { result ≤ MOST_NODES }
        ensures tree { IsTree self.now }
    {
        self.nodes.len() as u32
    }

    /// The node of this number.
    pub fn node(&self, node: u32) -> &TreeNode
        requires { node < length self.now }
        ensures { slice_get self.now node ≡ Some result.now }
    {
        &self.nodes[node as usize]
    }

    /// What a stop callback of the node is registered on.
    pub fn nearest(&self, node: u32) -> NearestSource
        requires { node < length self.now }
        ensures nearest { read result ≡ nearest self.now node }
        ensures source { IsSourceOf self.now result }
    {
        self.nearest[node as usize]
    }
}
