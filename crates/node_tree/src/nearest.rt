//! The nearest source above each node, found once for all nodes, from the root downwards.
ghost use Rattle.std.specs.Prelude.{◌≡◌, ◌<◌, length, IfOk};
ghost use Rattle.node_tree.specs.Tree.{IsTree, given_by};
ghost use Rattle.node_tree.specs.Nearest.{read, TellsNearest};

use crate::node::TreeNode;
use std::alloc::{AllocError, Global};

/// What a stop callback of a node is registered on.
#[derive(Clone, Copy, Debug, PartialEq, Eq)]
pub enum NearestSource {
    /// The scope's source: no ancestor has a source or is unstoppable.
    Scope,
    /// The source of this node, the nearest ancestor that has one.
    Node(u32),
    /// None: the nearest such ancestor is unstoppable.
    Nowhere,
}

// What a parent gives its children, where `above` is what it has itself.
fn given_by(nodes: &[TreeNode], parent: u32, above: NearestSource) -> NearestSource
    requires { parent < length nodes.now }
    ensures { read result ≡ given_by nodes.now parent (read above) }
{
    let node = nodes[parent as usize];
    if node.source {
        NearestSource::Node(parent)
    } else if node.unstoppable {
        NearestSource::Nowhere
    } else {
        above
    }
}

/// The nearest source of each node.
pub fn nearest_sources(alloc: Global, nodes: &[TreeNode]) -> Result<Vec<NearestSource>, AllocError>
    requires { IsTree nodes.now }
    ensures { IfOk result (λ table. TellsNearest nodes.now table.items) }
{
    let mut table = vec![in alloc; NearestSource::Scope; nodes.len()]?;
    for node in (0..nodes.len()).rev() {
        if let Some(parent) = nodes[node].parent {
            table[node] = given_by(nodes, parent, table[parent as usize]);
        }
    }
    Ok(table)
}
