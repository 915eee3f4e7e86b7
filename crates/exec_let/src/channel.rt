//! What a let's child has for its bodies ([exec.let]).
ghost use Rattle.std.specs.Prelude.{◌≡◌};
ghost use Rattle.start_laws.specs.Lets.{channel_of};
ghost use Rattle.exec_let.specs.Kinds.{IsLet, is_small};

use exec_value::{Completion, Data, Datum};
use node_images::{take_error, take_stopped, take_value};
use plan_rules::Node;
use std::alloc::Global;

/// The data that the completion has on the let's channel, taken out of it; none where it is on
/// another. It takes no memory.
#[inline(always)]
pub(crate) fn take_channel(alloc: Global, node: &Node, done: &mut Completion) -> Option<Data>
    requires { IsLet node.now }
    ensures { result ≡ channel_of node.now done.old }
{
    match node {
        Node::LetValue { .. } => take_value(alloc, done),
        Node::LetError { .. } => take_error(alloc, done),
        Node::LetStopped { .. } => take_stopped(alloc, done),
        _ => unreachable!(),
    }
}

/// A node of a small plan may complete so: of these data, long names of errors alone want memory.
pub(crate) fn is_small(done: &Completion) -> bool
    ensures { result ≡ is_small done.now }
{
    match done {
        Completion::Value(values) => matches!(values.as_slice(), [] | [Datum::Int(_)]),
        _ => true,
    }
}
