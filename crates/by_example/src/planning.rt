//! A plan by calls of a builder, and what steps its nodes.
ghost use Rattle.std.specs.Prelude.{◌≡◌, Ok, IfOk, IfErr};
ghost use Rattle.plan_kinds.specs.Runnable.{IsRunnable};
ghost use Rattle.plan_shape.specs.declared.fault.BuildFault.{BuildFault};
ghost use Rattle.by_example.specs.Adder.{adder, pool_adder};

use exec_job::Job;
use exec_recv::OpenGate;
use exec_value::Kind;
use node_stepper::NodeSteps;
use node_tree::ScopeKind;
use plan_builder::{BuildFault, Context, Plan, PlanBuilder, Settings};
use sig_check::{SigFault, check};
use std::alloc::{AllocError, Global};

/// Int records, in a scope without stop source, and no rule that asks for a stop.
const OF_INTS: Settings = Settings {
    version: 1,
    input: Kind::Int,
    scope: ScopeKind::Simple,
    stop_after: None,
    on_error_stop: false,
};

// What a builder answers that refuses nothing: it fails for want of memory alone.
fn built<T>(answer: Result<T, BuildFault>) -> Result<T, AllocError>
    requires { IfErr answer (λ fault. fault ≡ BuildFault.NoMemory) }
    ensures { IfOk result (λ value. answer ≡ Ok value) }
{
    match answer {
        Ok(value) => Ok(value),
        Err(BuildFault::NoMemory) => Err(AllocError),
        Err(_) => unreachable!(),
    }
}

/// The plan of `then(input, add 1)` ([exec.then]), whose input is the number of a record. It fails
/// only for want of memory.
pub fn plan_adder(alloc: Global) -> Result<Plan, AllocError>
    ensures { IfOk result (λ plan. plan ≡ adder) }
{
    let mut builder = PlanBuilder::new(alloc);
    let input = built(builder.input())?;
    let root = built(builder.then(input, Job::Add(1)))?;
    built(builder.finish(root, OF_INTS))
}

/// The plan of `starts_on(pool, then(input, add 1))` ([exec.starts.on]). It fails only for want of
/// memory.
pub fn plan_pool_adder(alloc: Global) -> Result<Plan, AllocError>
    ensures { IfOk result (λ plan. plan ≡ pool_adder) }
{
    let mut builder = PlanBuilder::new(alloc);
    let input = built(builder.input())?;
    let next = built(builder.then(input, Job::Add(1)))?;
    let root = built(builder.starts_on(Context::Pool, next))?;
    built(builder.finish(root, OF_INTS))
}

/// What steps the nodes of the first plan, whose kinds are checked before ([exec.getcomplsigs]). It
/// fails only for want of memory: for a plan that comes from elsewhere the two other answers count.
pub(crate) fn adder_steps<'a>(
    alloc: Global,
    plan: &'a Plan,
    gate: &'a OpenGate,
) -> Result<NodeSteps<'a, OpenGate>, AllocError>
    requires plan { plan.now ≡ adder }
    ensures steps { IfOk result (λ steps. steps ≡ adder) }
    ensures kinds { IfOk result (λ steps. IsRunnable steps) }
{
    match check(alloc, plan) {
        Ok(_) => {}
        Err(SigFault::NoMemory) => return Err(AllocError),
        Err(SigFault::Kinds(_)) => unreachable!(),
    }
    // Asked for what it says of every plan.
    let _ = plan.size();
    Ok(NodeSteps::of(plan, gate))
}
