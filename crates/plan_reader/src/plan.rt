//! A whole plan file.
ghost use Rattle.std.specs.Prelude.{◌≡◌, ◌≢◌, Ok, Err, IfOk, IfErr, OnOk, map};
ghost use Rattle.serde_json.specs.View.{view};
ghost use Rattle.plan_shape.specs.Blueprint.{AreSettings};
ghost use Rattle.plan_parts.specs.Reading.{IfGood};
ghost use Rattle.plan_reader.specs.Plans.{first_fault, joined, known_settings, plan_keys, plan_of, walked_of};
ghost use Rattle.plan_reader.specs.Roots.{HasOneRoot};

use crate::fault::PlanFault;
use crate::found::Found;
use crate::settings::{is_first_version, settings_of};
use crate::walk::Walk;
use plan_parts::{Faults, Reading, with_keys};
use plan_rules::Settings;
use serde_json::Value;
use std::alloc::{AllocError, Global};

/// How many levels deep the nodes of a plan file may stand in each other. `serde_json` reads no
/// text that nests deeper.
pub const MOST_LEVELS: u32 = 127;

/// The plan that a JSON value is.
#[tactic(auto, unfolding(crate::specs::Plans::plan_of))]
pub(crate) fn plan_of(alloc: Global, value: &Value) -> Result<Found, PlanFault>
    ensures ok { IfOk result (λ found. plan_of (view value.now) ≡ Ok found) }
    ensures err { IfErr result (λ fault. fault ≢ PlanFault.NoMemory
        → plan_of (view value.now) ≡ Err fault) }
{
    let walk = walked_of(alloc, value)?;
    joined(known_settings(value), walk)
}

/// The settings of a file that has no unknown key.
pub fn known_settings(value: &Value) -> Reading<Settings>
    ensures value { result ≡ known_settings (view value.now) }
    ensures settings { IfGood result AreSettings }
{
    with_keys(plan_keys(), value, settings_of(value))
}

/// The keys of a plan file.
fn plan_keys() -> &'static [&'static str]
    ensures { map (λ key. key.now) result.now ≡ plan_keys }
{
    &[
        "input",
        "on_error",
        "root",
        "scope",
        "stop_after",
        "version",
    ]
}

/// The walk over all nodes.
#[tactic(auto, unfolding(crate::specs::Plans::walked_of))]
fn walked_of(alloc: Global, value: &Value) -> Result<Walk, AllocError>
    ensures { IfOk result (λ walk. walk ≡ walked_of (view value.now)) }
{
    let mut walk = Walk::new(alloc, is_first_version(value));
    walk.child(alloc, value, "root", MOST_LEVELS)?;
    Ok(walk)
}

/// The plan of these settings and of the nodes that were made.
fn joined(settings: Reading<Settings>, walk: Walk) -> Result<Found, PlanFault>
    requires settings { IfGood settings AreSettings }
    requires roots { IfGood settings (HasOneRoot walk) }
    ensures ok { IfOk result (λ found. joined settings walk ≡ Ok found) }
    ensures err { IfErr result (λ fault. fault ≢ PlanFault.NoMemory
        → joined settings walk ≡ Err fault) }
{
    match settings {
        Reading::Good(settings) => walk.finish(settings),
        Reading::Bad(faults) => Err(first_fault(faults.both(walk.faults()))),
    }
}

/// Which of these faults is answered.
pub(crate) fn first_fault(faults: Faults) -> PlanFault
    ensures { result ≡ first_fault faults }
{
    if faults.form {
        PlanFault::Form
    } else if faults.name {
        PlanFault::UnknownName
    } else {
        PlanFault::Limit
    }
}
