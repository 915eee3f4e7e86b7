//! The parts of a let, of whichever channel.
ghost use Rattle.std.specs.Prelude.{◌≡◌};
ghost use Rattle.plan_kinds.specs.Runs.{bodies_of};
ghost use Rattle.start_laws.specs.Lets.{pick_of};
ghost use Rattle.exec_let.specs.Kinds.{IsLet, let_child};

use exec_job::Job;
use plan_rules::{Node, NodeId};

/// The child that runs with the let's arguments.
pub(crate) fn let_child(node: &Node) -> NodeId
    requires { IsLet node.now }
    ensures { result ≡ let_child node.now }
{
    match node {
        Node::LetValue { child, .. } => *child,
        Node::LetError { child, .. } => *child,
        Node::LetStopped { child, .. } => *child,
        _ => unreachable!(),
    }
}

/// The job that gives the number of the body that runs.
pub(crate) fn let_pick(node: &Node) -> &Job
    requires { IsLet node.now }
    ensures { result.now ≡ pick_of node.now }
{
    match node {
        Node::LetValue { pick, .. } => pick,
        Node::LetError { pick, .. } => pick,
        Node::LetStopped { pick, .. } => pick,
        _ => unreachable!(),
    }
}

/// The bodies.
pub(crate) fn let_bodies(node: &Node) -> &[NodeId]
    requires { IsLet node.now }
    ensures { result.now ≡ bodies_of node.now }
{
    match node {
        Node::LetValue { bodies, .. } => bodies.as_slice(),
        Node::LetError { bodies, .. } => bodies.as_slice(),
        Node::LetStopped { bodies, .. } => bodies.as_slice(),
        _ => unreachable!(),
    }
}
