//! Why bytes are no plan, and where.
ghost use Rattle.std.specs.Prelude.{IfOk, string_bytes};
ghost use Rattle.serde_json.specs.View.{view};
ghost use Rattle.plan_places.specs.Refusals.{IsRefusal, IsValueRefusal, TellsOfValue, TellsPosition};
ghost use Rattle.plan_places.specs.Told.{Tells, at_site, excluding, faulty, in_keys, limited, of_whole, site_of};

use crate::json::{position_of, value_of};
use crate::kinds::kinds_refusal;
use crate::place::{at_path, own_keys};
use crate::seeking::{Spot, first_of};
use crate::sought::Sought;
use plan_reader::{MOST_PLAN_BYTES, PlanFault, known_settings};
use plan_reasons::{Fault, excluded, faults_of, settings_wrong};
use plan_shape::{MOST_DEPTH, MOST_FIRST_VERSION_NODES, MOST_PLAN_NODES};
use serde_json::Value;
use std::alloc::{AllocError, Global};

// The numbers that sentences name are the limits that a plan is held to.
const _: () = prove!(MOST_PLAN_BYTES == 1_048_576);

const _: () = prove!(MOST_FIRST_VERSION_NODES == 256 && MOST_PLAN_NODES == 1_024);

const _: () = prove!(MOST_DEPTH == 56);

/// Why bytes are no plan: the causes of `PlanFault`, told apart further where that can be.
#[derive(Clone, Copy, Debug, PartialEq, Eq)]
pub enum Cause {
    TooLong,
    NotJson,
    Form,
    UnknownName,
    /// A number, a length or a count is outside its limits.
    Limit,
    /// A node stands too deep.
    Depth,
    /// An `ahead` stands where none may.
    Misplaced,
    /// There are too many nodes.
    Size,
    /// The job of a bulk isn't over elements.
    OtherJob,
    /// The kinds of a node don't match.
    Kinds,
    Excluded,
}

/// Why bytes are no plan: a cause, the place as it stands in a sentence, and the reason, which
/// names the word that is wrong and says what was wanted there.
#[derive(Drop)]
pub struct Refusal {
    pub cause: Cause,
    pub place: Vec<u8>,
    pub reason: String,
}

/// The refusal that is told of bytes which `read_plan` refuses for this fault.
pub fn refusal_of(alloc: Global, bytes: &[u8], fault: PlanFault) -> Result<Refusal, AllocError>
    ensures { IfOk result (IsRefusal bytes.now fault) }
{
    match fault {
        PlanFault::TooLong => {
            of_whole(
                alloc,
                Cause::TooLong,
                "the file has more than 1048576 bytes",
            )
        }
        PlanFault::NotJson => position_refusal(alloc, bytes),
        PlanFault::NoMemory => Err(AllocError),
        _ => told_of(alloc, bytes, fault),
    }
}

/// The same of a fault of the JSON value that the bytes are.
fn told_of(alloc: Global, bytes: &[u8], fault: PlanFault) -> Result<Refusal, AllocError>
    ensures { IfOk result (TellsOfValue bytes.now fault) }
{
    match value_of(alloc, bytes)? {
        Some(value) => value_refusal(alloc, bytes, fault, &value),
        // The bytes are JSON where `read_plan` tells such a fault.
        None => {
            let refusal = position_refusal(alloc, bytes)?;
            Ok(refusal)
        }
    }
}

/// Of bytes that aren't JSON.
fn position_refusal(alloc: Global, bytes: &[u8]) -> Result<Refusal, AllocError>
    ensures { IfOk result TellsPosition }
{
    Ok(Refusal {
        cause: Cause::NotJson,
        place: position_of(alloc, bytes)?,
        reason: String::from_str(
            alloc,
            "the file is no UTF-8, no JSON, or nests more than 127 deep",
        )?,
    })
}

/// Of bytes with this JSON value.
fn value_refusal(
    alloc: Global,
    bytes: &[u8],
    fault: PlanFault,
    value: &Value,
) -> Result<Refusal, AllocError>
    ensures { IfOk result (IsValueRefusal bytes.now (view value.now) fault) }
{
    match fault {
        PlanFault::Form => faulty_refusal(alloc, Cause::Form, Fault::Form, value),
        PlanFault::UnknownName => faulty_refusal(alloc, Cause::UnknownName, Fault::Name, value),
        PlanFault::Limit => limit_refusal(alloc, value),
        PlanFault::Kinds => kinds_refusal(alloc, bytes, value),
        PlanFault::Excluded => in_keys(alloc, Cause::Excluded, excluded(alloc, value)?),
        _ => Err(AllocError),
    }
}

/// Of the file as a whole.
pub(crate) fn of_whole(alloc: Global, cause: Cause, reason: &str) -> Result<Refusal, AllocError>
    ensures { IfOk result (Tells (of_whole cause reason.now)) }
{
    Ok(Refusal {
        cause,
        place: Vec::new(alloc),
        reason: String::from_str(alloc, reason)?,
    })
}

/// Of the keys beside `root`.
fn in_keys(alloc: Global, cause: Cause, reason: String) -> Result<Refusal, AllocError>
    ensures { IfOk result (Tells (in_keys cause (string_bytes reason))) }
{
    Ok(Refusal {
        cause,
        place: own_keys(alloc)?,
        reason,
    })
}

/// Of a node that was found.
pub(crate) fn at_spot(alloc: Global, cause: Cause, spot: Spot) -> Result<Refusal, AllocError>
    ensures { IfOk result (Tells (at_site cause (site_of spot))) }
{
    Ok(Refusal {
        cause,
        place: at_path(alloc, &spot.path)?,
        reason: spot.reason,
    })
}

/// Of a fault that a node has, or else the keys beside `root`.
fn faulty_refusal(
    alloc: Global,
    cause: Cause,
    fault: Fault,
    value: &Value,
) -> Result<Refusal, AllocError>
    ensures { IfOk result (Tells (faulty cause fault (view value.now))) }
{
    match first_of(alloc, Sought::Own(fault), value)? {
        Some(spot) => at_spot(alloc, cause, spot),
        None => in_keys(alloc, cause, settings_wrong(alloc, fault, value)?),
    }
}

/// Of a limit.
#[tactic(auto, unfolding(crate::specs::Told::limited))]
fn limit_refusal(alloc: Global, value: &Value) -> Result<Refusal, AllocError>
    ensures { IfOk result (Tells (limited (view value.now))) }
{
    if let Some(spot) = first_of(alloc, Sought::Own(Fault::Limit), value)? {
        return at_spot(alloc, Cause::Limit, spot);
    }
    if faults_of(known_settings(value)).limit {
        return in_keys(
            alloc,
            Cause::Limit,
            settings_wrong(alloc, Fault::Limit, value)?,
        );
    }
    if let Some(spot) = first_of(alloc, Sought::Below(MOST_DEPTH), value)? {
        return at_spot(alloc, Cause::Depth, spot);
    }
    match first_of(alloc, Sought::Ahead(false), value)? {
        Some(spot) => at_spot(alloc, Cause::Misplaced, spot),
        None => of_whole(
            alloc,
            Cause::Size,
            "there are more nodes than a plan may have: 256 in version 1, and else 1024",
        ),
    }
}
