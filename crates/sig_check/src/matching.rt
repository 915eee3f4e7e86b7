//! Whether the kinds of a node match.
ghost use Rattle.std.specs.Prelude.{◌≡◌, ◌∷◌, [], length};
ghost use Rattle.exec_job.specs.Takes.{is_row};
ghost use Rattle.plan_kinds.specs.Equal.{same_kinds};
ghost use Rattle.plan_kinds.specs.Shapes.{never_or, is_few, joined};
ghost use Rattle.plan_kinds.specs.Runs.{run_by};
ghost use Rattle.plan_kinds.specs.Values.{shapes_of, match_case};

use crate::gives::{ending, picks, picks_by, takes_value};
use crate::joint::{Joint, joined};
use crate::shapes::{all_agree, one, only};
use exec_value::Kind;
use plan_kinds::{KindList, Sig};
use plan_rules::Node;

/// Whether the kinds of a node match, by the signatures of its children and of its bodies.
pub(crate) fn kinds_match(node: &Node, own: &[Sig], behind: &[Sig]) -> bool
    requires { length own.now ≡ length (run_by node.now) }
    ensures { result ≡ match_case node.now own.now behind.now }
{
    match node {
        Node::Then { job, .. } => takes_value(job, &only(own).value),
        Node::UponError { job, .. } => {
            let given = [ending(job, &[Kind::Text])];
            job.takes(&[Kind::Text]) && all_agree(&only(own).value, &given)
        }
        Node::UponStopped { job, .. } => {
            let given = [ending(job, &[])];
            job.takes(&[]) && all_agree(&only(own).value, &given)
        }
        Node::LetValue { pick, .. } => {
            picks_by(pick, &only(own).value) && all_agree(&None, behind)
        }
        Node::LetError { pick, .. } => {
            picks(pick, &[Kind::Text]) && all_agree(&only(own).value, behind)
        }
        Node::LetStopped { pick, .. } => picks(pick, &[]) && all_agree(&only(own).value, behind),
        Node::StoppedAsOptional { of, .. } => is_one(*of, &only(own).value),
        Node::Bulk { job, .. } => job.is_element() && is_row(&only(own).value),
        Node::WhenAll { .. } | Node::Ahead { .. } => joins_few(own),
        Node::Input | Node::Just(_) | Node::JustError(_) | Node::JustStopped => true,
        Node::Schedule(_) | Node::Delay(_) | Node::ReadEnv(_) | Node::Part { .. } => true,
        Node::StartsOn { .. } | Node::ContinuesOn { .. } => true,
        Node::StoppedAsError { .. } | Node::Unstoppable { .. } => true,
    }
}

/// One datum of this kind, or never a value.
fn is_one(kind: Kind, shape: &Option<KindList>) -> bool
    ensures { result ≡ never_or (same_kinds (kind ∷ [])) shape.now }
{
    match shape {
        Some(kinds) => one(kind) == *kinds,
        None => true,
    }
}

/// One row, or never a value.
fn is_row(shape: &Option<KindList>) -> bool
    ensures { result ≡ never_or is_row shape.now }
{
    match shape {
        Some(kinds) => matches!(kinds.as_slice(), [Kind::Row]),
        None => true,
    }
}

/// Whether the values have together no more data than one may have, or one is never a value.
fn joins_few(sigs: &[Sig]) -> bool
    ensures { result ≡ never_or is_few (joined (shapes_of sigs.now)) }
{
    !matches!(joined(sigs), Joint::TooMany)
}
