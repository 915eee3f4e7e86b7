//! Which body of a let runs ([exec.let]).
ghost use Rattle.std.specs.Prelude.{◌≡◌, ◌<◌, length, IsOk, IfOk, OnOk};
ghost use Rattle.exec_value.specs.Place.{AreInPlace};
ghost use Rattle.exec_job.specs.Answer.{ending, EndsInPlace};
ghost use Rattle.exec_job.specs.Apply.{TakesData, apply_of};
ghost use Rattle.plan_rules.specs.Allowed.{body_at};
ghost use Rattle.node_images.specs.Picks.{picked_body};

use exec_job::{Job, apply};
use exec_value::{Completion, Data, Datum, copy_data};
use plan_rules::NodeId;
use std::alloc::{AllocError, Global};

/// The body that the pick names for these values. The pick's answer is put in the let's place,
/// where it stays if it names none.
pub fn pick_body(
    alloc: Global,
    pick: &Job,
    values: &Data,
    bodies: &[NodeId],
    done: &mut Completion,
) -> Result<Option<NodeId>, AllocError>
    requires takes { TakesData pick.now values.now }
    requires some { 0 < length bodies.now }
    ensures answer { OnOk result (done.new ≡ ending (apply_of pick.now values.now)) }
    ensures body { IfOk result (λ body. body ≡ picked_body done.new bodies.now) }
    ensures in_place { AreInPlace values.now → EndsInPlace (apply_of pick.now values.now)
        → IsOk result }
{
    done.put(apply(alloc, pick, copy_data(alloc, values)?)?);
    Ok(picked(done, bodies))
}

/// The body that a pick's answer names, where that is one int.
fn picked(answer: &Completion, bodies: &[NodeId]) -> Option<NodeId>
    requires { 0 < length bodies.now }
    ensures { result ≡ picked_body answer.now bodies.now }
{
    match answer {
        Completion::Value(values) => match values.as_slice() {
            [Datum::Int(number)] => Some(body_at(bodies, *number)),
            _ => None,
        },
        _ => None,
    }
}

/// The body that a number names: below 0 the first, and from the last on the last.
fn body_at(bodies: &[NodeId], number: i64) -> NodeId
    requires { 0 < length bodies.now }
    ensures { result ≡ body_at bodies.now number }
{
    let last = bodies.len() - 1;
    bodies[usize::try_from(number.max(0)).map_or(last, |place| place.min(last))]
}
