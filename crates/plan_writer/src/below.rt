//! Where the children of a node stand in its object.
ghost use Rattle.std.specs.Prelude.{◌≡◌};
ghost use Rattle.plan_writer.specs.Nodes.{below_of, listed};

use plan_rules::{Node, NodeId};

/// At which keys the children of a node stand.
#[derive(Clone, Copy)]
pub(crate) enum Below {
    Nothing,
    /// At `child`.
    Child(NodeId),
    /// At `child`, and the others in an array at `bodies`.
    ChildAndBodies(NodeId),
    /// In an array at `children`.
    Children,
    /// At `first` and `second`.
    Pair(NodeId, NodeId),
}

/// At which keys the children of this node stand.
pub(crate) fn below_of(node: &Node) -> Below
    ensures { result ≡ below_of node.now }
{
    match node {
        Node::Then { child, .. } => Below::Child(*child),
        Node::UponError { child, .. } => Below::Child(*child),
        Node::UponStopped { child, .. } => Below::Child(*child),
        Node::LetValue { child, .. } => Below::ChildAndBodies(*child),
        Node::LetError { child, .. } => Below::ChildAndBodies(*child),
        Node::LetStopped { child, .. } => Below::ChildAndBodies(*child),
        Node::StartsOn { child, .. } => Below::Child(*child),
        Node::ContinuesOn { child, .. } => Below::Child(*child),
        Node::StoppedAsOptional { child, .. } => Below::Child(*child),
        Node::StoppedAsError { child, .. } => Below::Child(*child),
        Node::Bulk { child, .. } => Below::Child(*child),
        Node::WhenAll { .. } => Below::Children,
        Node::Unstoppable { child } => Below::Child(*child),
        Node::Ahead { first, second } => Below::Pair(*first, *second),
        _ => Below::Nothing,
    }
}

/// The children of this node that stand in an array, in order.
pub(crate) fn listed(node: &Node) -> &[NodeId]
    ensures { result.now ≡ listed node.now }
{
    match node {
        Node::LetValue { bodies, .. } => bodies.as_slice(),
        Node::LetError { bodies, .. } => bodies.as_slice(),
        Node::LetStopped { bodies, .. } => bodies.as_slice(),
        Node::WhenAll { children } => children.as_slice(),
        _ => &[],
    }
}
