//! What adaptors make of the completion of their child, in its place.
ghost use Rattle.std.specs.Prelude.{◌≡◌, IsOk, IfOk, IfSome};
ghost use Rattle.exec_value.specs.Place.{IsInPlace};
ghost use Rattle.exec_job.specs.Apply.{TakesData};
ghost use Rattle.plan_rules.specs.Images.{value_data, error_data, stopped_data, applied};
ghost use Rattle.plan_rules.specs.Images.{then_of, upon_error_of, upon_stopped_of};
ghost use Rattle.plan_rules.specs.Images.{some_of, as_optional, as_error};
ghost use Rattle.node_images.specs.Makes.{Makes};

use crate::channel::{take_error, take_stopped, take_value};
use exec_job::{Job, apply, apply_at, fault_ending};
use exec_value::{Completion, Data, Datum, Txt};
use std::alloc::{AllocError, Global};

/// A value becomes what the job makes of it ([exec.then]). An element job changes its number where
/// it lies.
#[inline(always)]
pub fn then(alloc: Global, job: &Job, done: &mut Completion) -> Result<(), AllocError>
    requires { IfSome (value_data done.old) (TakesData job.now) }
    ensures { Makes (then_of job.now done.old) done.new result }
{
    if !job.is_element() {
        return then_moved(alloc, job, done);
    }
    if let Completion::Value(values) = done {
        if let Some(number) = values.one_int() {
            match apply_at(job, 0, number) {
                Ok(made) => values.set_int(made),
                Err(fault) => done.put(fault_ending(alloc, fault)),
            }
        }
    }
    Ok(())
}

/// The same for a job that is no element job: the data are taken out for it.
#[inline(never)]
fn then_moved(alloc: Global, job: &Job, done: &mut Completion) -> Result<(), AllocError>
    requires { IfSome (value_data done.old) (TakesData job.now) }
    ensures { Makes (then_of job.now done.old) done.new result }
{
    let values = take_value(alloc, done);
    apply_on(alloc, job, values, done)
}

/// An error becomes what the job makes of its name.
pub fn upon_error(alloc: Global, job: &Job, done: &mut Completion) -> Result<(), AllocError>
    requires { IfSome (error_data done.old) (TakesData job.now) }
    ensures { Makes (upon_error_of job.now done.old) done.new result }
{
    let name = take_error(alloc, done);
    apply_on(alloc, job, name, done)
}

/// Stopped becomes what the job makes of no data.
pub fn upon_stopped(alloc: Global, job: &Job, done: &mut Completion) -> Result<(), AllocError>
    requires { IfSome (stopped_data done.old) (TakesData job.now) }
    ensures { Makes (upon_stopped_of job.now done.old) done.new result }
{
    let none = take_stopped(alloc, done);
    apply_on(alloc, job, none, done)
}

/// Data that were taken from a channel become what the job makes of them; where there were none,
/// the completion passes.
fn apply_on(
    alloc: Global,
    job: &Job,
    taken: Option<Data>,
    done: &mut Completion,
) -> Result<(), AllocError>
    requires { IfSome taken (TakesData job.now) }
    ensures { Makes (applied job.now taken done.old) done.new result }
{
    if let Some(data) = taken {
        done.put(apply(alloc, job, data)?);
    }
    Ok(())
}

/// A value becomes one that is there, and stopped one that isn't ([exec.stopped.opt]).
pub fn stopped_as_optional(alloc: Global, done: &mut Completion) -> Result<(), AllocError>
    ensures { Makes (as_optional done.old) done.new result }
{
    let datum = match done {
        Completion::Value(values) => match values.as_slice() {
            [datum] => some_of(datum)?,
            _ => return Ok(()),
        },
        Completion::Stopped => Datum::Nothing,
        _ => return Ok(()),
    };
    done.put(Completion::Value(Data::one(alloc, datum)));
    Ok(())
}

/// The datum, where there may be none.
fn some_of(datum: &Datum) -> Result<Datum, AllocError>
    ensures ok { IfOk result (λ some. some ≡ some_of datum.now) }
    ensures in_place { IsInPlace (some_of datum.now) → IsOk result }
{
    match datum {
        Datum::Int(number) => Ok(Datum::SomeInt(*number)),
        Datum::Text(text) => Ok(Datum::SomeText(text.clone()?)),
        other => other.clone(),
    }
}

/// Stopped becomes the error of this name ([exec.stopped.err]).
pub fn stopped_as_error(name: &Txt, done: &mut Completion) -> Result<(), AllocError>
    ensures { Makes (as_error name.now done.old) done.new result }
{
    if let Completion::Stopped = done {
        done.put(Completion::error(name.clone()?));
    }
    Ok(())
}
