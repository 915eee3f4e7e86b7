//! Jobs.
ghost use Rattle.std.specs.Prelude.{◌≡◌, ◌≤◌, All, IsTrue, IfOk};
ghost use Rattle.serde_json.specs.View.{view};
ghost use Rattle.exec_value.specs.ErrorName.{is_error_name};
ghost use Rattle.exec_value.specs.Kinds.{IsConstant};
ghost use Rattle.plan_shape.specs.Conditions.{IsLawfulJob};
ghost use Rattle.plan_parts.specs.Reading.{IfGood, mapped};
ghost use Rattle.plan_parts.specs.Jobs.{arithmetic_job, default_of, default_text, job_at, job_of, job_parts, plain_job, within_job};

use crate::constant::constants_at;
use crate::job_word::{Arithmetic, JobWord, PlainJob, job_keys, job_named};
use crate::object::{number_at, text_at, with_keys};
use crate::reading::{FORM_FAULT, NAME_FAULT, Reading};
use crate::scalar::{MOST_PLACE, count_at, name_at, txt_of};
use exec_job::Job;
use exec_value::{Data, Txt};
use serde_json::Value;
use std::alloc::{AllocError, Global};

/// The job at a key.
pub fn job_at(alloc: Global, value: &Value, key: &str) -> Result<Reading<Job>, AllocError>
    ensures value { IfOk result (λ reading. reading ≡ job_at key.now (view value.now)) }
    ensures lawful { IfOk result (λ reading. IfGood reading IsLawfulJob) }
{
    match value.get(key) {
        Some(job) => job_of(alloc, job),
        None => Ok(Reading::Bad(FORM_FAULT)),
    }
}

/// The job that a value is.
fn job_of(alloc: Global, value: &Value) -> Result<Reading<Job>, AllocError>
    ensures value { IfOk result (λ reading. reading ≡ job_of (view value.now)) }
    ensures lawful { IfOk result (λ reading. IfGood reading IsLawfulJob) }
{
    match text_at(value, "job") {
        Some(name) => match job_named(name) {
            Some(word) => {
                let reading = job_parts(alloc, word, value)?;
                Ok(with_keys(job_keys(word), value, reading))
            }
            None => Ok(Reading::Bad(NAME_FAULT)),
        },
        None => Ok(Reading::Bad(FORM_FAULT)),
    }
}

/// A job by its name and its further keys.
fn job_parts(alloc: Global, word: JobWord, value: &Value) -> Result<Reading<Job>, AllocError>
    ensures value { IfOk result (λ reading. reading ≡ job_parts word (view value.now)) }
    ensures lawful { IfOk result (λ reading. IfGood reading IsLawfulJob) }
{
    match word {
        JobWord::Plain(plain) => Ok(Reading::Good(plain_job(plain))),
        JobWord::Arithmetic(arithmetic) => Ok(arithmetic_job(arithmetic, number_at(value, "n"))),
        JobWord::Within => Ok(within_job(number_at(value, "lo").paired(number_at(value, "hi")))),
        JobWord::Fail => Ok(fail_job(name_at(alloc, value, "error")?)),
        JobWord::Append => append_job(alloc, value),
        JobWord::Give => Ok(give_job(constants_at(alloc, value, "values")?)),
        JobWord::At => Ok(place_job(count_at(value, "i", 0, MOST_PLACE))),
        JobWord::ValueOr => value_or_job(alloc, value),
    }
}

/// A job of which the name says all.
fn plain_job(plain: PlainJob) -> Job
    ensures value { result ≡ plain_job plain }
    ensures lawful { IsLawfulJob result }
{
    match plain {
        PlainJob::Neg => Job::Neg,
        PlainJob::Index => Job::Index,
        PlainJob::Iota => Job::Iota,
        PlainJob::Sum => Job::Sum,
        PlainJob::Join => Job::Join,
        PlainJob::Length => Job::Length,
        PlainJob::Parse => Job::Parse,
        PlainJob::Show => Job::Show,
        PlainJob::Pass => Job::Pass,
    }
}

/// A job with one number.
fn arithmetic_job(arithmetic: Arithmetic, number: Reading<i64>) -> Reading<Job>
    ensures value { result ≡ mapped (arithmetic_job arithmetic) number }
    ensures lawful { IfGood result IsLawfulJob }
{
    match number {
        Reading::Good(n) => match arithmetic {
            Arithmetic::Add => Reading::Good(Job::Add(n)),
            Arithmetic::Sub => Reading::Good(Job::Sub(n)),
            Arithmetic::Mul => Reading::Good(Job::Mul(n)),
            Arithmetic::Div => Reading::Good(Job::Div(n)),
        },
        Reading::Bad(faults) => Reading::Bad(faults),
    }
}

/// `within`, from the first number to the second.
fn within_job(numbers: Reading<(i64, i64)>) -> Reading<Job>
    ensures value { result ≡ mapped within_job numbers }
    ensures lawful { IfGood result IsLawfulJob }
{
    match numbers {
        Reading::Good((lo, hi)) => Reading::Good(Job::Within { lo, hi }),
        Reading::Bad(faults) => Reading::Bad(faults),
    }
}

/// `fail` with this error name.
fn fail_job(name: Reading<Txt>) -> Reading<Job>
    requires { IfGood name (λ name. IsTrue (is_error_name name)) }
    ensures value { result ≡ mapped Job.Fail name }
    ensures lawful { IfGood result IsLawfulJob }
{
    match name {
        Reading::Good(name) => Reading::Good(Job::Fail(name)),
        Reading::Bad(faults) => Reading::Bad(faults),
    }
}

/// `append` of a text.
fn append_job(alloc: Global, value: &Value) -> Result<Reading<Job>, AllocError>
    ensures value { IfOk result
        (λ reading. reading ≡ job_parts JobWord.Append (view value.now)) }
    ensures lawful { IfOk result (λ reading. IfGood reading IsLawfulJob) }
{
    match text_at(value, "text") {
        Some(text) => match txt_of(alloc, text)? {
            Reading::Good(text) => Ok(Reading::Good(Job::Append(text))),
            Reading::Bad(faults) => Ok(Reading::Bad(faults)),
        },
        None => Ok(Reading::Bad(FORM_FAULT)),
    }
}

/// `give` of these constants.
fn give_job(constants: Reading<Data>) -> Reading<Job>
    requires { IfGood constants (All IsConstant) }
    ensures value { result ≡ mapped Job.Give constants }
    ensures lawful { IfGood result IsLawfulJob }
{
    match constants {
        Reading::Good(values) => Reading::Good(Job::Give(values)),
        Reading::Bad(faults) => Reading::Bad(faults),
    }
}

/// `at` of this place.
fn place_job(place: Reading<u32>) -> Reading<Job>
    requires { IfGood place (λ place. place ≤ MOST_PLACE) }
    ensures value { result ≡ mapped Job.At place }
    ensures lawful { IfGood result IsLawfulJob }
{
    match place {
        Reading::Good(place) => Reading::Good(Job::At(place)),
        Reading::Bad(faults) => Reading::Bad(faults),
    }
}

/// `value_or` with a number or a text.
fn value_or_job(alloc: Global, value: &Value) -> Result<Reading<Job>, AllocError>
    ensures value { IfOk result
        (λ reading. reading ≡ job_parts JobWord.ValueOr (view value.now)) }
    ensures lawful { IfOk result (λ reading. IfGood reading IsLawfulJob) }
{
    match value.get("else") {
        Some(default) => default_of(alloc, default),
        None => Ok(Reading::Bad(FORM_FAULT)),
    }
}

/// `value_or` with this default.
fn default_of(alloc: Global, default: &Value) -> Result<Reading<Job>, AllocError>
    ensures value { IfOk result (λ reading. reading ≡ default_of (view default.now)) }
    ensures lawful { IfOk result (λ reading. IfGood reading IsLawfulJob) }
{
    if let Some(number) = default.as_i64() {
        return Ok(Reading::Good(Job::IntOr(number)));
    }
    match default.as_str() {
        Some(text) => default_text(alloc, text),
        None => Ok(Reading::Bad(FORM_FAULT)),
    }
}

/// `value_or` with this text.
fn default_text(alloc: Global, text: &str) -> Result<Reading<Job>, AllocError>
    ensures value { IfOk result (λ reading. reading ≡ default_text text.now) }
    ensures lawful { IfOk result (λ reading. IfGood reading IsLawfulJob) }
{
    match txt_of(alloc, text)? {
        Reading::Good(text) => Ok(Reading::Good(Job::TextOr(text))),
        Reading::Bad(faults) => Ok(Reading::Bad(faults)),
    }
}
