//! What an adaptor makes of its child's completion ([exec.adapt]).
ghost use Rattle.std.specs.Prelude.{◌≡◌, true, false, IsOk, OnOk};
ghost use Rattle.plan_kinds.specs.Small.{name_of_job, own_name};
ghost use Rattle.start_laws.specs.Nodes.{JobTakes};
ghost use Rattle.exec_adapt.specs.Kinds.{IsAdaptor};
ghost use Rattle.exec_adapt.specs.Images.{acts_on, is_fail, has_own_name, names_error};
ghost use Rattle.exec_adapt.specs.Images.{adapted_to, StandsButForName};

use exec_job::Job;
use exec_value::{Completion, Txt};
use node_images::{stopped_as_error, stopped_as_optional, then, upon_error, upon_stopped};
use plan_rules::Node;
use std::alloc::{AllocError, Global};

// The completion is on the node's channel: the node makes something of it. Others pass.
fn acts_on(node: &Node, done: &Completion) -> bool
    ensures { result ≡ acts_on node.now done.now }
{
    match node {
        Node::Then { .. } => matches!(done, Completion::Value(_)),
        Node::UponError { .. } => matches!(done, Completion::Error(_)),
        Node::UponStopped { .. } => matches!(done, Completion::Stopped),
        Node::StoppedAsOptional { .. } => {
            matches!(done, Completion::Value(_) | Completion::Stopped)
        }
        Node::StoppedAsError { .. } => matches!(done, Completion::Stopped),
        _ => false,
    }
}

/// The node applies a job to the completion.
pub(crate) fn runs_job(node: &Node, done: &Completion) -> bool {
    match node {
        Node::Then { .. } | Node::UponError { .. } | Node::UponStopped { .. } => {
            acts_on(node, done)
        }
        _ => false,
    }
}

// The job is the error of a name.
fn is_fail(job: &Job) -> bool
    ensures { result ≡ is_fail job.now }
{
    matches!(job, Job::Fail(_))
}

// What the node makes is the error of a name that the plan says.
fn has_own_name(node: &Node) -> bool
    ensures { result ≡ has_own_name node.now }
{
    match node {
        Node::Then { job, .. } => is_fail(job),
        Node::UponError { job, .. } => is_fail(job),
        Node::UponStopped { job, .. } => is_fail(job),
        Node::StoppedAsError { .. } => true,
        _ => false,
    }
}

/// What the node makes of the completion is the error of a name that the plan says.
pub(crate) fn names_error(node: &Node, done: &Completion) -> bool
    ensures { result ≡ names_error node.now done.now }
{
    acts_on(node, done) && has_own_name(node)
}

// The name of the error that the job gives.
fn name_of_job(job: &Job) -> &Txt
    requires { is_fail job.now ≡ true }
    ensures { result.now ≡ name_of_job job.now }
{
    match job {
        Job::Fail(name) => name,
        _ => unreachable!(),
    }
}

/// That name.
pub(crate) fn own_name(node: &Node) -> &Txt
    requires { has_own_name node.now ≡ true }
    ensures { result.now ≡ own_name node.now }
{
    match node {
        Node::Then { job, .. } => name_of_job(job),
        Node::UponError { job, .. } => name_of_job(job),
        Node::UponStopped { job, .. } => name_of_job(job),
        Node::StoppedAsError { error, .. } => error,
        _ => unreachable!(),
    }
}

/// Puts what the node makes of its child's completion in its place. It is no error that the plan
/// names, so it wants memory only for data.
#[inline(always)]
pub(crate) fn make_image(
    alloc: Global,
    node: &Node,
    done: &mut Completion,
) -> Result<(), AllocError>
    requires adaptor { IsAdaptor node.now }
    requires takes { JobTakes node.now done.old }
    requires unnamed { names_error node.now done.old ≡ false }
    ensures exact { OnOk result (done.new ≡ adapted_to node.now done.old) }
    ensures in_place { StandsButForName (adapted_to node.now done.old) → IsOk result }
{
    if !acts_on(node, done) {
        return Ok(());
    }
    match node {
        Node::Then { job, .. } => then(alloc, job, done),
        Node::UponError { job, .. } => upon_error(alloc, job, done),
        Node::UponStopped { job, .. } => upon_stopped(alloc, job, done),
        Node::StoppedAsOptional { .. } => stopped_as_optional(alloc, done),
        Node::StoppedAsError { error, .. } => stopped_as_error(error, done),
        _ => unreachable!(),
    }
}
