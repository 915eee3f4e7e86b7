//! Which values a node can have.
ghost use Rattle.std.specs.Prelude.{◌≡◌, length, IsTrue};
ghost use Rattle.plan_kinds.specs.Runs.{run_by};
ghost use Rattle.plan_kinds.specs.Values.{body_arguments, maybe_of, value_case, match_case};

use crate::gives::{ending, gives_for, kinds_of};
use crate::joint::{Joint, joined};
use crate::shapes::{common, copy, one, only};
use exec_value::Kind;
use plan_kinds::{KindList, Sig};
use plan_rules::Node;

/// The shape of the arguments that the bodies of a let run under.
pub(crate) fn body_arguments(node: &Node, own: &[Sig]) -> Option<KindList>
    requires { length own.now ≡ length (run_by node.now) }
    ensures { result ≡ body_arguments node.now own.now }
{
    match node {
        Node::LetValue { .. } => copy(&only(own).value),
        Node::LetError { .. } => Some(one(Kind::Text)),
        Node::LetStopped { .. } => Some(KindList::empty()),
        _ => None,
    }
}

/// The shape of a node's value, where its kinds match.
pub(crate) fn value(
    node: &Node,
    arguments: &Option<KindList>,
    own: &[Sig],
    behind: &[Sig],
) -> Option<KindList>
    requires children { length own.now ≡ length (run_by node.now) }
    requires matches { IsTrue (match_case node.now own.now behind.now) }
    ensures { result ≡ value_case node.now arguments.now own.now behind.now }
{
    match node {
        Node::Input => copy(arguments),
        Node::Just(values) => Some(kinds_of(values.as_slice())),
        Node::JustError(_) | Node::JustStopped => None,
        Node::Schedule(_) | Node::Delay(_) => Some(KindList::empty()),
        Node::ReadEnv(_) => Some(one(Kind::Int)),
        Node::Then { job, .. } => gives_for(job, &only(own).value),
        Node::UponError { job, .. } => {
            copy(common(&only(own).value, &[ending(job, &[Kind::Text])]))
        }
        Node::UponStopped { job, .. } => copy(common(&only(own).value, &[ending(job, &[])])),
        Node::LetValue { .. } => copy(common(&None, behind)),
        Node::LetError { .. } | Node::LetStopped { .. } => copy(common(&only(own).value, behind)),
        Node::StartsOn { .. } | Node::ContinuesOn { .. } => copy(&only(own).value),
        Node::StoppedAsOptional { of, .. } => Some(one(maybe_of(*of))),
        Node::StoppedAsError { .. } | Node::Bulk { .. } => copy(&only(own).value),
        Node::Unstoppable { .. } => copy(&only(own).value),
        Node::WhenAll { .. } | Node::Ahead { .. } => match joined(own) {
            Joint::Kinds(kinds) => Some(kinds),
            _ => None,
        },
        Node::Part { .. } => Some(one(Kind::Row)),
    }
}

/// The kind of what may be missing.
fn maybe_of(kind: Kind) -> Kind
    ensures { result ≡ maybe_of kind }
{
    match kind {
        Kind::Int => Kind::MaybeInt,
        Kind::Text => Kind::MaybeText,
        _ => kind,
    }
}
