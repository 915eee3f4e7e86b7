//! Jobs as JSON objects.
ghost use Rattle.std.specs.Prelude.{◌≡◌, IfOk, OnOk};
ghost use Rattle.serde_json.specs.View.{view};
ghost use Rattle.plan_shape.specs.Conditions.{IsLawfulJob};
ghost use Rattle.plan_writer.specs.Held.{IsHeldJob, IsLong};
ghost use Rattle.plan_writer.specs.Jobs.{arithmetic_data, job_data, job_with, plain_data, within_data};

use crate::constant::constants_value;
use crate::member::{named, text_value, with};
use exec_job::Job;
use serde_json::Value;
use std::alloc::{AllocError, Global};

/// A job.
pub(crate) fn job_value(alloc: Global, job: &Job) -> Result<Value, AllocError>
    requires { IsLawfulJob job.now }
    ensures value { IfOk result (λ value. view value ≡ job_data job.now) }
    ensures held { OnOk result (IsHeldJob job.now) }
{
    match job {
        Job::Add(n) => arithmetic(alloc, "add", *n),
        Job::Sub(n) => arithmetic(alloc, "sub", *n),
        Job::Mul(n) => arithmetic(alloc, "mul", *n),
        Job::Div(n) => arithmetic(alloc, "div", *n),
        Job::Neg => plain(alloc, "neg"),
        Job::Within { lo, hi } => within(alloc, *lo, *hi),
        Job::Index => plain(alloc, "index"),
        Job::Fail(name) => job_with(alloc, "fail", "error", text_value(alloc, name)?),
        Job::Iota => plain(alloc, "iota"),
        Job::Sum => plain(alloc, "sum"),
        Job::Append(text) => job_with(alloc, "append", "text", text_value(alloc, text)?),
        Job::Join => plain(alloc, "join"),
        Job::Length => plain(alloc, "length"),
        Job::Parse => plain(alloc, "parse"),
        Job::Show => plain(alloc, "show"),
        Job::Give(values) => job_with(alloc, "give", "values", constants_value(alloc, values)?),
        Job::At(place) => job_with(alloc, "at", "i", Value::from(*place)),
        Job::IntOr(n) => job_with(alloc, "value_or", "else", Value::from(*n)),
        Job::TextOr(text) => job_with(alloc, "value_or", "else", text_value(alloc, text)?),
        Job::Pass => plain(alloc, "pass"),
    }
}

/// A job of which the name says all.
fn plain(alloc: Global, name: &str) -> Result<Value, AllocError>
    ensures { IfOk result (λ value. view value ≡ plain_data name.now) }
{
    Ok(Value::Object(named(alloc, "job", name)?))
}

/// A job with one more member.
fn job_with(alloc: Global, name: &str, key: &str, value: Value) -> Result<Value, AllocError>
    ensures { IfOk result (λ made. view made ≡ job_with name.now key.now (view value)) }
{
    let members = named(alloc, "job", name)?;
    Ok(Value::Object(with(alloc, members, key, value)?))
}

/// A job with one number.
fn arithmetic(alloc: Global, name: &str, n: i64) -> Result<Value, AllocError>
    ensures value { IfOk result (λ value. view value ≡ arithmetic_data name.now n) }
    ensures long { IsLong n }
{
    job_with(alloc, name, "n", Value::from(n))
}

/// From the first number to the second.
fn within(alloc: Global, lo: i64, hi: i64) -> Result<Value, AllocError>
    ensures value { IfOk result (λ value. view value ≡ within_data lo hi) }
    ensures long { IsLong lo × IsLong hi }
{
    let members = named(alloc, "job", "within")?;
    let members = with(alloc, members, "lo", Value::from(lo))?;
    Ok(Value::Object(with(alloc, members, "hi", Value::from(hi))?))
}
