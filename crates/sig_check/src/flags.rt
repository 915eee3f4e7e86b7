//! Whether a node may end by an error, and whether by stopped.
ghost use Rattle.std.specs.Prelude.{◌≡◌, length, option_copied};
ghost use Rattle.plan_rules.specs.Bulks.{job_of_bulk};
ghost use Rattle.plan_kinds.specs.Runs.{run_by};
ghost use Rattle.plan_kinds.specs.Flags.{any_error, any_stop, error_case, stop_case};

use crate::gives::may_fail;
use crate::shapes::only;
use exec_job::Job;
use plan_kinds::Sig;
use plan_rules::{Node, NodeId};
use plan_shape::Plan;

/// Whether a node may end by an error, by the signatures of its children and of its bodies.
pub(crate) fn may_error(plan: &Plan, node: &Node, own: &[Sig], behind: &[Sig]) -> bool
    requires { length own.now ≡ length (run_by node.now) }
    ensures { result ≡ error_case plan.now.nodes node.now own.now behind.now }
{
    match node {
        Node::JustError(_) => true,
        Node::Then { job, .. } | Node::UponStopped { job, .. } | Node::Bulk { job, .. } => {
            only(own).may_error || may_fail(job)
        }
        Node::UponError { job, .. } => may_fail(job),
        Node::LetValue { pick, .. } | Node::LetStopped { pick, .. } => {
            only(own).may_error || may_fail(pick) || any_error(behind)
        }
        Node::LetError { pick, .. } => may_fail(pick) || any_error(behind),
        Node::StartsOn { .. } | Node::ContinuesOn { .. } => only(own).may_error,
        Node::StoppedAsOptional { .. } | Node::Unstoppable { .. } => only(own).may_error,
        Node::StoppedAsError { .. } => only(own).may_error || only(own).may_stop,
        Node::WhenAll { .. } | Node::Ahead { .. } => any_error(own),
        Node::Part { bulk, .. } => job_of_bulk(plan, *bulk).map_or(false, may_fail),
        Node::Input | Node::Just(_) | Node::JustStopped => false,
        Node::Schedule(_) | Node::Delay(_) | Node::ReadEnv(_) => false,
    }
}

/// Whether a node may end by stopped, by the signatures of its children and of its bodies.
pub(crate) fn may_stop(node: &Node, own: &[Sig], behind: &[Sig]) -> bool
    requires { length own.now ≡ length (run_by node.now) }
    ensures { result ≡ stop_case node.now own.now behind.now }
{
    match node {
        Node::JustStopped | Node::Schedule(_) | Node::Delay(_) => true,
        Node::StartsOn { .. } | Node::ContinuesOn { .. } | Node::WhenAll { .. } => true,
        Node::Then { .. } | Node::UponError { .. } => only(own).may_stop,
        Node::Bulk { .. } | Node::Unstoppable { .. } => only(own).may_stop,
        Node::LetValue { .. } | Node::LetError { .. } => only(own).may_stop || any_stop(behind),
        Node::LetStopped { .. } => any_stop(behind),
        Node::Ahead { .. } => any_stop(own),
        Node::Input | Node::Just(_) | Node::JustError(_) | Node::ReadEnv(_) => false,
        Node::UponStopped { .. } | Node::Part { .. } => false,
        Node::StoppedAsOptional { .. } | Node::StoppedAsError { .. } => false,
    }
}

/// Whether one of these may end by an error.
fn any_error(sigs: &[Sig]) -> bool
    ensures { result ≡ any_error sigs.now }
{
    sigs.iter().any(|sig| sig.may_error)
}

/// Whether one of these may end by stopped.
fn any_stop(sigs: &[Sig]) -> bool
    ensures { result ≡ any_stop sigs.now }
{
    sigs.iter().any(|sig| sig.may_stop)
}

/// The job of the bulk with this number.
fn job_of_bulk(plan: &Plan, bulk: NodeId) -> Option<&Job>
    ensures { option_copied result ≡ job_of_bulk plan.now.nodes bulk }
{
    if bulk >= plan.size() {
        return None;
    }
    match plan.node(bulk) {
        Node::Bulk { job, .. } => Some(job),
        _ => None,
    }
}
