//! Who serves the pool in a run.
ghost use Rattle.std.specs.Prelude.{◌≡◌, ◌≤◌};
ghost use Rattle.std.specs.List.{list_any};
ghost use Rattle.exec_engine.specs.Crewing.{goes_to_pool, workers_for};

use node_tree::Context;
use plan_rules::Node;
use plan_shape::Plan;

/// How many workers a run of the plan has, where the command gives so many: none where the plan
/// never goes to the pool, since a worker would find nothing there.
pub(crate) fn workers_for(plan: &Plan, workers: u32) -> u32
    ensures some { result ≡ workers_for plan.now workers }
    ensures most { result ≤ workers }
{
    if uses_pool(plan) { workers } else { 0 }
}

// Whether the plan goes to the pool.
fn uses_pool(plan: &Plan) -> bool
    ensures { result ≡ list_any goes_to_pool plan.now.nodes }
{
    for number in 0..plan.size() {
        if goes_to_pool(plan.node(number)) {
            return true;
        }
    }
    false
}

// Whether a node is taken in the pool: a hop into it ([exec.schedule], [exec.starts.on],
// [exec.continues.on]), or a part of a bulk ([exec.bulk]).
fn goes_to_pool(node: &Node) -> bool
    ensures { result ≡ goes_to_pool node.now }
{
    match node {
        Node::Schedule(on) | Node::StartsOn { on, .. } | Node::ContinuesOn { on, .. } => {
            matches!(on, Context::Pool)
        }
        Node::Part { .. } => true,
        _ => false,
    }
}
