//! How many records are worked on at once.
ghost use Rattle.std.specs.Prelude.{◌≡◌};
ghost use Rattle.plan_shape.specs.Finish.{is_ahead};
ghost use Rattle.line_rules.specs.PlanTerms.{has_ahead, window_of};

use plan_rules::Node;
use plan_shape::Plan;

/// The most records of a plan with an `ahead` that are worked on at once: the first children of its
/// `ahead` nodes take blocks of their own.
pub const MOST_WITH_AHEAD: usize = 192;

/// How many records of a plan are worked on at once, where the command gives this window.
pub fn at_once(plan: &Plan, window: usize) -> usize
    ensures { result ≡ window_of plan.now window }
{
    if has_ahead(plan) {
        window.min(MOST_WITH_AHEAD)
    } else {
        window
    }
}

/// Whether the plan has an `ahead`: its first child runs as an operation of its own.
pub fn has_ahead(plan: &Plan) -> bool
    ensures { result ≡ has_ahead plan.now }
{
    for number in 0..plan.size() {
        if spawns(plan.node(number)) {
            return true;
        }
    }
    false
}

/// Whether a node is an `ahead`.
fn spawns(node: &Node) -> bool
    ensures { result ≡ is_ahead node.now }
{
    matches!(node, Node::Ahead { .. })
}
