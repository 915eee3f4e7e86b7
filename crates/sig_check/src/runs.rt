//! Which nodes a node runs.
ghost use Rattle.std.specs.Prelude.{◌≡◌, [], ◌∷◌, IfOk};
ghost use Rattle.plan_kinds.specs.Runs.{run_by, bodies_of};

use plan_rules::{Node, NodeId};
use std::alloc::{AllocError, Global};

/// The children, which a node runs under its own arguments.
pub fn run_by(alloc: Global, node: &Node) -> Result<Vec<NodeId>, AllocError>
    ensures { IfOk result (λ children. children.items ≡ run_by node.now) }
{
    match node {
        Node::Input | Node::Just(_) | Node::JustError(_) | Node::JustStopped => Ok(Vec::new(alloc)),
        Node::Schedule(_) | Node::Delay(_) | Node::ReadEnv(_) => Ok(Vec::new(alloc)),
        Node::Part { .. } => Ok(Vec::new(alloc)),
        Node::Then { child, .. } | Node::Bulk { child, .. } => just(alloc, *child),
        Node::UponError { child, .. } | Node::UponStopped { child, .. } => just(alloc, *child),
        Node::LetValue { child, .. } | Node::LetError { child, .. } => just(alloc, *child),
        Node::LetStopped { child, .. } | Node::Unstoppable { child } => just(alloc, *child),
        Node::StartsOn { child, .. } | Node::ContinuesOn { child, .. } => just(alloc, *child),
        Node::StoppedAsOptional { child, .. } => just(alloc, *child),
        Node::StoppedAsError { child, .. } => just(alloc, *child),
        Node::WhenAll { children } => children.as_slice().to_vec(alloc),
        Node::Ahead { first, second } => [*first, *second].to_vec(alloc),
    }
}

/// The list of one node.
fn just(alloc: Global, child: NodeId) -> Result<Vec<NodeId>, AllocError>
    ensures { IfOk result (λ children. children.items ≡ child ∷ []) }
{
    [child].to_vec(alloc)
}

/// The bodies of a let, which run under arguments of their own.
pub fn bodies_of(node: &Node) -> &[NodeId]
    ensures { result.now ≡ bodies_of node.now }
{
    match node {
        Node::LetValue { bodies, .. } => bodies.as_slice(),
        Node::LetError { bodies, .. } => bodies.as_slice(),
        Node::LetStopped { bodies, .. } => bodies.as_slice(),
        _ => &[],
    }
}
