//! What is wrong with a job.
ghost use Rattle.std.specs.Prelude.{◌≡◌, IfOk, [], codes, option_and_then, string_bytes, unwrap_or};
ghost use Rattle.serde_json.specs.Find.{get};
ghost use Rattle.serde_json.specs.View.{view};
ghost use Rattle.plan_parts.specs.Objects.{text_at};
ghost use Rattle.plan_reasons.specs.Jobs.{job_part, job_wrong, job_wrong_at, jobs, known_job_wrong, named_job_wrong, no_job, other_job};

use crate::own::{Fault, faults_of, key_faults};
use crate::part::Part;
use crate::sentence::{needs, unknown_key, wrong_at, wrong_part};
use crate::shown::shown_text;
use plan_parts::{JobWord, job_keys, job_named, number_at, text_at};
use serde_json::Value;
use std::alloc::{AllocError, Global};

/// The jobs of a bulk, which are over elements, and those of the other nodes, by what they take.
fn jobs(elements: bool) -> &'static str
    ensures { result.now ≡ jobs elements }
{
    if elements {
        "jobs over elements: add, sub, mul, div, neg, within, index"
    } else {
        "jobs on an int: add, sub, mul, div, neg, within, iota, show; \
on a text: append, parse, length; on a row: length; on ints and rows: sum; on texts: join; \
on an optional: value_or; on any data: at, fail, give, pass"
    }
}

/// A job whose name isn't known.
fn no_job(alloc: Global, elements: bool, name: &str) -> Result<String, AllocError>
    ensures { IfOk result (λ text. string_bytes text ≡ no_job elements name.now) }
{
    let jobs = jobs(elements);
    let shown = shown_text(alloc, name)?;
    format!(in alloc; "no job {shown}; {jobs}")
}

/// Which part of a job is wrong, where its keys are known. A job of which the name says all has no
/// other part.
fn job_part(word: JobWord, value: &Value) -> Part
    ensures { result ≡ job_part word (view value.now) }
{
    match word {
        JobWord::Plain(_) => Part::JobName,
        JobWord::Arithmetic(_) => Part::N,
        JobWord::Within => {
            if faults_of(number_at(value, "lo")).form {
                Part::Lo
            } else {
                Part::Hi
            }
        }
        JobWord::Fail => Part::Error,
        JobWord::Append => Part::Text,
        JobWord::Give => Part::Values,
        JobWord::At => Part::I,
        JobWord::ValueOr => Part::Else,
    }
}

/// What is wrong with a job of this name.
fn known_job_wrong(
    alloc: Global,
    fault: Fault,
    name: &str,
    word: JobWord,
    value: &Value,
) -> Result<String, AllocError>
    ensures { IfOk result
        (λ text. string_bytes text ≡ known_job_wrong fault name.now word (view value.now)) }
{
    if fault.is_in(key_faults(value, job_keys(word))) {
        unknown_key(alloc, name, job_keys(word), value)
    } else {
        wrong_part(alloc, fault, name, job_part(word, value), value)
    }
}

/// What is wrong with a job of a node, over elements or not.
#[tactic(auto, unfolding(crate::specs::Jobs::job_wrong))]
fn job_wrong(
    alloc: Global,
    fault: Fault,
    elements: bool,
    value: &Value,
) -> Result<String, AllocError>
    ensures { IfOk result
        (λ text. string_bytes text ≡ job_wrong fault elements (view value.now)) }
{
    match text_at(value, "job") {
        Some(name) => named_job_wrong(alloc, fault, elements, value, name),
        None => wrong_at(alloc, "a job", Part::JobName, value),
    }
}

/// The same of one that has a name.
fn named_job_wrong(
    alloc: Global,
    fault: Fault,
    elements: bool,
    value: &Value,
    name: &str,
) -> Result<String, AllocError>
    ensures { IfOk result
        (λ text. string_bytes text ≡ named_job_wrong fault elements (view value.now) name.now) }
{
    match job_named(name) {
        Some(word) => known_job_wrong(alloc, fault, name, word, value),
        None => no_job(alloc, elements, name),
    }
}

/// What is wrong with the job at a key of a node.
#[tactic(auto, unfolding(crate::specs::Jobs::job_wrong_at))]
pub(crate) fn job_wrong_at(
    alloc: Global,
    fault: Fault,
    elements: bool,
    who: &str,
    part: Part,
    value: &Value,
) -> Result<String, AllocError>
    ensures { IfOk result (λ text. string_bytes text
        ≡ job_wrong_at fault elements who.now part (view value.now)) }
{
    match value.get(part.key()) {
        Some(job) => job_wrong(alloc, fault, elements, job),
        None => needs(alloc, who, part, value),
    }
}

/// The name of a bulk's job; of a value that has none it is empty.
fn name_of_job(value: &Value) -> &str
    ensures { result.now ≡
        unwrap_or (option_and_then (text_at (codes "job"))
        (get (codes "job") (view value.now))) [] }
{
    match value.get("job") {
        Some(job) => match text_at(job, "job") {
            Some(name) => name,
            None => "",
        },
        None => "",
    }
}

/// The job of a bulk is none over elements.
#[tactic(auto, unfolding(crate::specs::Jobs::other_job))]
pub fn other_job(alloc: Global, value: &Value) -> Result<String, AllocError>
    ensures { IfOk result (λ text. string_bytes text ≡ other_job (view value.now)) }
{
    let shown = shown_text(alloc, name_of_job(value))?;
    let jobs = jobs(true);
    format!(in alloc; "{shown} is no job over elements; {jobs}")
}
