//! Jobs on data.
ghost use Rattle.std.specs.Prelude.{◌≡◌, ◌≢◌, ◌≤◌, ◌∷◌, [], length, Ok, Err, IsTrue, IsFalse, IsOk, IfOk};
ghost use Rattle.exec_value.specs.declared.limits.TheConstants.{DATA};
ghost use Rattle.exec_value.specs.Place.{IsInPlace};
ghost use Rattle.exec_value.specs.Number.{int_of};
ghost use Rattle.exec_job.specs.Answer.{Gives, int_answer, parsed, ending};
ghost use Rattle.exec_job.specs.Apply.{TakesData, apply_of, HasLength, length_of, int_or, text_or};
ghost use Rattle.exec_job.specs.Element.{fitting};
ghost use Rattle.exec_job.specs.Takes.{is_element};

use crate::element::apply_at;
use crate::fault::JobFault;
use crate::job::Job;
use crate::numbers::{iota, sum};
use crate::operands::{only, only_int, only_text};
use crate::texts::{append, join, show};
use exec_value::{Completion, Data, Datum, Txt, copy_data, read_int};
use std::alloc::{AllocError, Global};

/// What a job gives for data that it takes: a value, or an error.
///
/// It wants no memory where the answer stands in place, as an error, a number and a short text do.
/// The operands are dropped where there is none.
pub fn apply(alloc: Global, job: &Job, operands: Data) -> Result<Completion, AllocError>
    requires { TakesData job.now operands }
    ensures { Gives (apply_of job.now operands) result }
{
    if job.is_element() {
        let x = only_int(operands.as_slice());
        return Ok(int_ending(alloc, apply_at(job, 0, x)));
    }
    match job {
        Job::Pass => Ok(Completion::Value(operands)),
        _ => apply_to(alloc, job, operands.as_slice()),
    }
}

/// A job that is no element job and not `Pass`.
fn apply_to(alloc: Global, job: &Job, operands: &[Datum]) -> Result<Completion, AllocError>
    requires takes { TakesData job.now operands.now }
    requires kind { IsFalse (is_element job.now) }
    requires not_pass { job.now ≢ Job.Pass }
    requires few { length operands.now ≤ DATA }
    ensures { Gives (apply_of job.now operands.now) result }
{
    match job {
        Job::Fail(name) => Ok(Completion::error(name.clone()?)),
        Job::Iota => iota(alloc, only_int(operands)),
        Job::Sum => Ok(int_ending(alloc, sum(operands))),
        Job::Append(text) => append(alloc, only_text(operands), text),
        Job::Join => join(alloc, operands),
        Job::Length => Ok(one(alloc, length_of(only(operands)))),
        Job::Parse => Ok(parse(alloc, only_text(operands))),
        Job::Show => Ok(show(alloc, only_int(operands))),
        Job::Give(values) => Ok(Completion::Value(copy_data(alloc, values)?)),
        Job::At(place) => Ok(one(alloc, copy(&operands[*place as usize])?)),
        Job::IntOr(n) => Ok(one(alloc, int_or(only(operands), *n))),
        Job::TextOr(text) => Ok(one(alloc, text_or(only(operands), text)?)),
        _ => unreachable!(),
    }
}

/// The value of one datum. It takes no memory.
fn one(alloc: Global, datum: Datum) -> Completion
    ensures { result ≡ ending (Ok (datum ∷ [])) }
{
    Completion::Value(Data::one(alloc, datum))
}

/// A number, or the error of an operation on numbers. It takes no memory.
fn int_ending(alloc: Global, answer: Result<i64, JobFault>) -> Completion
    ensures { result ≡ ending (int_answer answer) }
{
    match answer {
        Ok(number) => one(alloc, Datum::Int(number)),
        Err(fault) => fault_ending(alloc, fault),
    }
}

/// The error of an operation on numbers. It takes no memory.
#[inline(never)]
pub fn fault_ending(alloc: Global, fault: JobFault) -> Completion
    ensures { result ≡ ending (int_answer (Err fault)) }
{
    Completion::error(Txt::short(alloc, fault.name()))
}

/// An equal datum. One that stands in place wants no memory.
fn copy(datum: &Datum) -> Result<Datum, AllocError>
    ensures ok { IfOk result (λ copied. copied ≡ datum.now) }
    ensures in_place { IsInPlace datum.now → IsOk result }
{
    datum.clone()
}

/// The number that a text shows as an int record.
fn parse(alloc: Global, text: &Txt) -> Completion
    ensures { result ≡ ending (parsed (int_of text.now)) }
{
    match read_int(text.as_bytes()) {
        Some(number) => one(alloc, Datum::Int(number)),
        None => Completion::error(Txt::short(alloc, "not-a-number")),
    }
}

/// How many bytes a text has, or how many numbers a row.
fn length_of(datum: &Datum) -> Datum
    requires { HasLength datum.now }
    ensures { result ≡ length_of datum.now }
{
    match datum {
        Datum::Text(text) => Datum::Int(text.as_bytes().len() as i64),
        Datum::Row(row) => Datum::Int(row.as_slice().len() as i64),
        _ => unreachable!(),
    }
}

/// The number that is held, or `n`.
fn int_or(datum: &Datum, n: i64) -> Datum
    ensures { result ≡ int_or n datum.now }
{
    match datum {
        Datum::SomeInt(x) => Datum::Int(*x),
        _ => Datum::Int(n),
    }
}

/// The text that is held, or `text`.
fn text_or(datum: &Datum, text: &Txt) -> Result<Datum, AllocError>
    ensures ok { IfOk result (λ chosen. chosen ≡ text_or text.now datum.now) }
    ensures in_place { IsInPlace (text_or text.now datum.now) → IsOk result }
{
    match datum {
        Datum::SomeText(held) => Ok(Datum::Text(held.clone()?)),
        _ => Ok(Datum::Text(text.clone()?)),
    }
}
