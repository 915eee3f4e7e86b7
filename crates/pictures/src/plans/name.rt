//! What nodes and kinds are called.
ghost use Rattle.std.specs.Prelude.{◌≡◌};
ghost use Rattle.pictures.specs.Plans.Names.{kind_word, name_of};

use exec_value::Kind;
use plan_rules::Node;

/// The name of a node, and the clause of the standard that has it.
pub(crate) fn name_of(node: &Node) -> &'static str
    ensures { result.now ≡ name_of node.now }
{
    match node {
        Node::Input => "input [exec.just]",
        Node::Just(_) => "just [exec.just]",
        Node::JustError(_) => "just_error [exec.just]",
        Node::JustStopped => "just_stopped [exec.just]",
        Node::Schedule(_) => "schedule [exec.schedule]",
        Node::Delay(_) => "delay",
        Node::ReadEnv(_) => "read_env [exec.read.env]",
        Node::Then { .. } => "then [exec.then]",
        Node::UponError { .. } => "upon_error [exec.then]",
        Node::UponStopped { .. } => "upon_stopped [exec.then]",
        Node::LetValue { .. } => "let_value [exec.let]",
        Node::LetError { .. } => "let_error [exec.let]",
        Node::LetStopped { .. } => "let_stopped [exec.let]",
        Node::StartsOn { .. } => "starts_on [exec.starts.on]",
        Node::ContinuesOn { .. } => "continues_on [exec.continues.on]",
        Node::StoppedAsOptional { .. } => "stopped_as_optional [exec.stopped.opt]",
        Node::StoppedAsError { .. } => "stopped_as_error [exec.stopped.err]",
        Node::Bulk { .. } => "bulk [exec.bulk]",
        Node::WhenAll { .. } => "when_all [exec.when.all]",
        Node::Part { .. } => "part [exec.bulk]",
        Node::Unstoppable { .. } => "unstoppable [exec.unstoppable]",
        Node::Ahead { .. } => "ahead, spawn_future of P3149",
    }
}

/// What a box says of a datum of this kind.
pub(crate) fn kind_word(kind: Kind) -> &'static str
    ensures { result.now ≡ kind_word kind }
{
    match kind {
        Kind::Int => "int",
        Kind::Text => "text",
        Kind::Row => "row",
        Kind::MaybeInt => "optional-int",
        Kind::MaybeText => "optional-text",
    }
}
