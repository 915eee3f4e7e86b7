//! Where the kinds of a plan don't match.
ghost use Rattle.std.specs.Prelude.{◌≡◌, true, IfOk};
ghost use Rattle.serde_json.specs.View.{view};
ghost use Rattle.plan_kinds.specs.Reached.{IsFirstMismatch};
ghost use Rattle.plan_places.specs.Refusals.{MayTell, TellsFound, TellsMismatch, TellsOtherJob, TellsRefused};

use crate::refusal::{Cause, Refusal, at_spot, of_whole};
use crate::seeking::first_of;
use crate::sought::Sought;
use crate::way::numbered_place;
use plan_reader::{Found, PlanFault, found_in};
use plan_reasons::Signed;
use plan_rules::NodeId;
use serde_json::Value;
use sig_check::{SigFault, check, signatures};
use std::alloc::{AllocError, Global};

/// Where no node is found whose kinds don't match, which a refusal of `read_plan` rules out.
const NO_MISMATCH: &str = "the kinds match";

/// Of kinds that don't match in a plan of these bytes, whose JSON value this is.
pub(crate) fn kinds_refusal(
    alloc: Global,
    bytes: &[u8],
    value: &Value,
) -> Result<Refusal, AllocError>
    ensures { IfOk result (TellsRefused bytes.now (view value.now)) }
{
    match found_in(alloc, bytes) {
        Ok(found) => found_refusal(alloc, &found, value),
        Err(PlanFault::NoMemory) => Err(AllocError),
        Err(_) => {
            let refusal = of_whole(alloc, Cause::Kinds, NO_MISMATCH)?;
            Ok(refusal)
        }
    }
}

/// The same of a plan that was read.
fn found_refusal(alloc: Global, found: &Found, value: &Value) -> Result<Refusal, AllocError>
    ensures { IfOk result (TellsFound found.now (view value.now)) }
{
    if found.elements {
        mismatch_refusal(alloc, found)
    } else {
        other_job_refusal(alloc, value)
    }
}

/// Of the first bulk whose job isn't over elements.
fn other_job_refusal(alloc: Global, value: &Value) -> Result<Refusal, AllocError>
    ensures { IfOk result (TellsOtherJob (view value.now)) }
{
    match first_of(alloc, Sought::OtherJob, value)? {
        Some(spot) => at_spot(alloc, Cause::OtherJob, spot),
        None => of_whole(
            alloc,
            Cause::OtherJob,
            "the job of a bulk is none over elements",
        ),
    }
}

/// Of the first node in the order of numbers whose kinds don't match.
fn mismatch_refusal(alloc: Global, found: &Found) -> Result<Refusal, AllocError>
    requires { found.now.elements ≡ true }
    ensures { IfOk result (MayTell found.now) }
{
    match check(alloc, &found.plan) {
        Ok(sigs) => {
            drop(sigs);
            let refusal = of_whole(alloc, Cause::Kinds, NO_MISMATCH)?;
            Ok(refusal)
        }
        Err(SigFault::Kinds(node)) => node_refusal(alloc, found, node),
        Err(SigFault::NoMemory) => Err(AllocError),
    }
}

/// Of this node, whose kinds are the first that don't match.
fn node_refusal(alloc: Global, found: &Found, node: NodeId) -> Result<Refusal, AllocError>
    requires { IsFirstMismatch found.now.plan.nodes found.now.plan.settings.input node }
    ensures { IfOk result (TellsMismatch found.now) }
{
    let sigs = signatures(alloc, &found.plan)?;
    let signed = Signed {
        plan: &found.plan,
        sigs: &sigs,
    };
    let reason = signed.mismatch(alloc, node)?;
    Ok(Refusal {
        cause: Cause::Kinds,
        place: numbered_place(alloc, &found.plan, node)?,
        reason,
    })
}
