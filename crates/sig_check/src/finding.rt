//! What a walk over a plan finds of a node.
ghost use Rattle.std.specs.Prelude.{◌≡◌, length};
ghost use Rattle.plan_kinds.specs.Runs.{run_by};
ghost use Rattle.plan_kinds.specs.Values.{match_case};
ghost use Rattle.plan_kinds.specs.Signatures.{sig_by};

use crate::flags::{may_error, may_stop};
use crate::matching::kinds_match;
use crate::values::value;
use plan_kinds::{KindList, Sig};
use plan_rules::Node;
use plan_shape::Plan;

/// A node's signature, and whether its kinds match.
#[derive(Drop)]
pub(crate) struct Finding {
    pub(crate) sig: Sig,
    pub(crate) matches: bool,
}

/// What there is to find of a node, by the shape of its arguments, and by the signatures of its
/// children and of its bodies.
pub(crate) fn finding_of(
    plan: &Plan,
    node: &Node,
    arguments: &Option<KindList>,
    own: &[Sig],
    behind: &[Sig],
) -> Finding
    requires { length own.now ≡ length (run_by node.now) }
    ensures sig { result.sig ≡ sig_by plan.now.nodes node.now arguments.now own.now behind.now }
    ensures matches { result.matches ≡ match_case node.now own.now behind.now }
{
    let matches = kinds_match(node, own, behind);
    let value = if matches {
        value(node, arguments, own, behind)
    } else {
        None
    };
    Finding {
        sig: Sig {
            value,
            may_error: may_error(plan, node, own, behind),
            may_stop: may_stop(node, own, behind),
        },
        matches,
    }
}
