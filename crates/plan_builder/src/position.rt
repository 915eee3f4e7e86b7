//! Where a node stands among those that a builder holds.
ghost use Rattle.std.specs.Prelude.{◌≡◌, ◌+◌, ◌<◌, ◌≤◌, ◌++◌, All, length, vec_len, vec_capacity};
ghost use Rattle.plan_builder.specs.Positions.{Adopts, Gains};

use crate::room::{append, append_copies};
use plan_rules::NodeId;

/// Where a node stands.
#[derive(Clone, Copy, Debug)]
pub struct Position {
    /// The node whose child it is; none yet for a node that is free.
    pub parent: Option<NodeId>,
    /// The number of nodes on the longest path from it down to a leaf.
    pub depth: u32,
}

// Makes these nodes children of one parent.
fn adopt(positions: &mut [Position], children: &[NodeId], parent: NodeId)
    requires { All (λ child. child < length positions.old) children.now }
    ensures { Adopts positions.old positions.new children.now parent }
{
    for child in children {
        positions[*child as usize].parent = Some(parent);
    }
}

/// Makes a node that is added the parent of its children, and appends its position behind those of
/// its parts, where there is room. The children are named in two lists, one after the other.
pub fn append_positions(
    positions: &mut Vec<Position>,
    front: &[NodeId],
    back: &[NodeId],
    node: NodeId,
    parts: u32,
    depth: u32,
)
    requires room { vec_len positions.old + parts + 1 ≤ vec_capacity positions.old }
    requires front { All (λ child. child < vec_len positions.old) front.now }
    requires back { All (λ child. child < vec_len positions.old) back.now }
    ensures { Gains positions.old.items positions.new.items
        (front.now ++ back.now) node parts depth }
{
    adopt(positions, front, node);
    adopt(positions, back, node);
    append_copies(
        positions,
        Position {
            parent: Some(node),
            depth: 1,
        },
        parts,
    );
    append(
        positions,
        Position {
            parent: None,
            depth,
        },
    );
}
