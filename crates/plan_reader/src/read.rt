//! From the bytes of a plan file to its plan.
ghost use Rattle.std.specs.Prelude.{◌≡◌, ◌≢◌, ◌<◌, ◌≤◌, ◌↔◌, ℕ, List, length, Ok, Err, Some, None, true, IfOk, IfErr, OnOk};
ghost use Rattle.std.specs.Result.{IsErrOf};
ghost use Rattle.serde_json.specs.View.{view};
ghost use Rattle.plan_shape.specs.Blueprint.{Blueprint};
ghost use Rattle.plan_reader.specs.declared.fault.PlanFault.{PlanFault};
ghost use Rattle.plan_reader.specs.Plans.{found_in, json_of};
ghost use Rattle.plan_reader.specs.PlanFile.{IsAccepted, IsFaultOf, IsPlanOf, IsRefused, Matches, kinds_fault};

use crate::fault::PlanFault;
use crate::found::Found;
use crate::plan::plan_of;
use plan_shape::Plan;
use serde_json::Value;
use sig_check::{SigFault, check};
use std::alloc::Global;

/// How many bytes a plan file has at most.
pub const MOST_PLAN_BYTES: usize = 1_048_576;

/// The plan of the file with these bytes, or the first cause why they are no plan.
///
/// Unless memory runs out, each answer comes exactly where its fact holds. `TooLong` comes there
/// whether or not memory suffices.
pub fn read_plan(alloc: Global, bytes: &[u8]) -> Result<Plan, PlanFault>
    ensures too_long { IsErrOf result PlanFault.TooLong ↔ (MOST_PLAN_BYTES < length bytes.now) }
    ensures fault { (fault : PlanFault) → fault ≢ PlanFault.NoMemory → IsErrOf result fault
        ↔ (IsFaultOf bytes.now fault × ¬ IsErrOf result PlanFault.NoMemory) }
    ensures plan { (plan : Blueprint) → (result ≡ Ok plan)
        ↔ (IsPlanOf bytes.now plan × ¬ IsErrOf result PlanFault.NoMemory) }
{
    match found_in(alloc, bytes) {
        Ok(found) => judged(alloc, found),
        Err(fault) => Err(fault),
    }
}

/// The plan of these bytes, of whose kinds nothing is said yet.
#[tactic(auto, unfolding(crate::specs::Plans::found_in))]
pub fn found_in(alloc: Global, bytes: &[u8]) -> Result<Found, PlanFault>
    ensures ok { IfOk result (λ found. found_in bytes.now ≡ Ok found) }
    ensures err { IfErr result (λ fault. fault ≢ PlanFault.NoMemory
        → found_in bytes.now ≡ Err fault) }
    ensures memory { IsErrOf result PlanFault.NoMemory → length bytes.now ≤ MOST_PLAN_BYTES }
{
    if bytes.len() > MOST_PLAN_BYTES {
        return Err(PlanFault::TooLong);
    }
    let value = read_json(alloc, bytes)?;
    plan_of(alloc, &value)
}

/// The JSON value of these bytes.
fn read_json(alloc: Global, bytes: &[u8]) -> Result<Value, PlanFault>
    ensures ok { IfOk result (λ value. json_of bytes.now ≡ Some (view value)) }
    ensures err { IfErr result (λ fault. fault ≢ PlanFault.NoMemory
        → (fault ≡ PlanFault.NotJson) × (json_of bytes.now ≡ None)) }
{
    match Value::from_slice(alloc, bytes) {
        Ok(value) => Ok(value),
        Err(e) if e.is_memory() => Err(PlanFault::NoMemory),
        Err(_) => Err(PlanFault::NotJson),
    }
}

/// The plan that was read, if it is accepted.
fn judged(alloc: Global, found: Found) -> Result<Plan, PlanFault>
    ensures ok { IfOk result (IsAccepted found) }
    ensures err { IfErr result (IsRefused found) }
{
    match check_kinds(alloc, &found) {
        Ok(()) => with_rules(found),
        Err(fault) => Err(fault),
    }
}

/// The plan that was read, if its settings don't exclude each other.
fn with_rules(found: Found) -> Result<Plan, PlanFault>
    requires { Matches found }
    ensures ok { IfOk result (IsAccepted found) }
    ensures err { IfErr result (IsRefused found) }
{
    if found.plan.settings().exclude_each_other() {
        return Err(PlanFault::Excluded);
    }
    Ok(found.plan)
}

/// Whether the kinds of a plan match, the jobs of its bulks among them.
fn check_kinds(alloc: Global, found: &Found) -> Result<(), PlanFault>
    ensures ok { OnOk result (Matches found.now) }
    ensures err { IfErr result (IsRefused found.now) }
{
    if found.elements {
        check_nodes(alloc, found)
    } else {
        Err(PlanFault::Kinds)
    }
}

/// The same of a plan whose bulks have element jobs.
fn check_nodes(alloc: Global, found: &Found) -> Result<(), PlanFault>
    requires { found.now.elements ≡ true }
    ensures ok { OnOk result (Matches found.now) }
    ensures err { IfErr result (IsRefused found.now) }
{
    match check(alloc, &found.plan) {
        Ok(sigs) => {
            drop(sigs);
            Ok(())
        }
        Err(fault) => Err(kinds_fault(fault)),
    }
}

/// How a refusal of the check of kinds is answered.
fn kinds_fault(fault: SigFault) -> PlanFault
    ensures { result ≡ kinds_fault fault }
{
    match fault {
        SigFault::Kinds(_) => PlanFault::Kinds,
        SigFault::NoMemory => PlanFault::NoMemory,
    }
}
