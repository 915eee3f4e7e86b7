//! Which node has a number, what a node names, and whether it names as many nodes as it may.
ghost use Rattle.std.specs.Prelude.{◌≡◌, ◌++◌, length, option_copied, slice_get};
ghost use Rattle.plan_rules.specs.Children.{named_by};
ghost use Rattle.plan_shape.specs.Children.{part_count};
ghost use Rattle.plan_shape.specs.Conditions.{has_lawful_count, is_within};

use plan_rules::{Node, NodeId};
use plan_shape::{BULK_PARTS, FEWEST_CHILDREN, MOST_BODIES, MOST_CHILDREN};
use std::slice;

/// The node of this number, if there is one.
pub(crate) fn node_at(nodes: &[Node], node: NodeId) -> Option<&Node>
    ensures { option_copied result ≡ slice_get nodes.now node }
{
    nodes.get(node as usize)
}

/// The nodes that a node names, in two lists, one after the other.
pub(crate) fn named(node: &Node) -> (&[NodeId], &[NodeId])
    ensures { named_by node.now ≡ result.0.now ++ result.1.now }
{
    match node {
        Node::Then { child, .. } => (slice::from_ref(child), &[]),
        Node::UponError { child, .. } => (slice::from_ref(child), &[]),
        Node::UponStopped { child, .. } => (slice::from_ref(child), &[]),
        Node::LetValue { child, bodies, .. } => (slice::from_ref(child), bodies.as_slice()),
        Node::LetError { child, bodies, .. } => (slice::from_ref(child), bodies.as_slice()),
        Node::LetStopped { child, bodies, .. } => (slice::from_ref(child), bodies.as_slice()),
        Node::StartsOn { child, .. } => (slice::from_ref(child), &[]),
        Node::ContinuesOn { child, .. } => (slice::from_ref(child), &[]),
        Node::StoppedAsOptional { child, .. } => (slice::from_ref(child), &[]),
        Node::StoppedAsError { child, .. } => (slice::from_ref(child), &[]),
        Node::Bulk { child, .. } => (slice::from_ref(child), &[]),
        Node::WhenAll { children } => (&[], children.as_slice()),
        Node::Unstoppable { child } => (slice::from_ref(child), &[]),
        Node::Ahead { first, second } => (slice::from_ref(first), slice::from_ref(second)),
        _ => (&[], &[]),
    }
}

/// Whether a node names as many bodies or children as it may.
pub(crate) fn has_lawful_count(node: &Node) -> bool
    ensures { result ≡ has_lawful_count node.now }
{
    match node {
        Node::LetValue { bodies, .. } => has_lawful_bodies(bodies.as_slice()),
        Node::LetError { bodies, .. } => has_lawful_bodies(bodies.as_slice()),
        Node::LetStopped { bodies, .. } => has_lawful_bodies(bodies.as_slice()),
        Node::WhenAll { children } => {
            let count = children.as_slice().len();
            FEWEST_CHILDREN <= count && count <= MOST_CHILDREN
        }
        _ => true,
    }
}

// Whether a let may have these bodies.
fn has_lawful_bodies(bodies: &[NodeId]) -> bool
    ensures { result ≡ is_within 1 MOST_BODIES (length bodies.now) }
{
    1 <= bodies.len() && bodies.len() <= MOST_BODIES
}

/// How many parts a node has.
pub(crate) fn part_count(node: &Node) -> u32
    ensures { result ≡ part_count node.now }
{
    match node {
        Node::Bulk { .. } => BULK_PARTS,
        _ => 0,
    }
}
