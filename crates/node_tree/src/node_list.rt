//! Lists of nodes.
ghost use Rattle.std.specs.Prelude.{List, ℕ, ◌≡◌, IfOk};

use std::alloc::{AllocError, Global};
use std::marker::Model;

/// A list of nodes.
#[derive(Debug, Drop)]
pub struct NodeList {
    nodes: Vec<u32>,
}

impl Model for NodeList {
    ghost Value = { List ℕ };

    ghost view = { λ list. list.nodes.items };
}

impl NodeList {
    /// A list of these nodes.
    pub fn from_slice(alloc: Global, nodes: &[u32]) -> Result<NodeList, AllocError>
        ensures { IfOk result (λ list. list ≡ nodes.now) }
    {
        Ok(NodeList {
            nodes: nodes.to_vec(alloc)?,
        })
    }

    /// The list of these nodes. It takes no memory.
    pub fn from_vec(nodes: Vec<u32>) -> NodeList
        ensures { result ≡ nodes.items }
    {
        NodeList { nodes }
    }

    /// The nodes, in order.
    pub fn as_slice(&self) -> &[u32]
        ensures { result.now ≡ self.now }
    {
        &self.nodes
    }
}
