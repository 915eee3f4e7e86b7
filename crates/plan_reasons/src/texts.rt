//! What jobs and kinds are called in a sentence.
ghost use Rattle.std.specs.Prelude.{◌≡◌, IfOk, string_bytes};
ghost use Rattle.plan_reasons.specs.Texts.{job_name, joined_names, shown_kind, kind_names, shape_text, wanted_by};

use crate::shown::joined;
use exec_job::Job;
use exec_value::Kind;
use plan_kinds::KindList;
use std::alloc::{AllocError, Global};

/// What a job is called.
pub(crate) fn job_name(job: &Job) -> &'static str
    ensures { result.now ≡ job_name job.now }
{
    match job {
        Job::Add(_) => "add",
        Job::Sub(_) => "sub",
        Job::Mul(_) => "mul",
        Job::Div(_) => "div",
        Job::Neg => "neg",
        Job::Within { .. } => "within",
        Job::Index => "index",
        Job::Fail(_) => "fail",
        Job::Iota => "iota",
        Job::Sum => "sum",
        Job::Append(_) => "append",
        Job::Join => "join",
        Job::Length => "length",
        Job::Parse => "parse",
        Job::Show => "show",
        Job::Give(_) => "give",
        Job::At(_) => "at",
        Job::IntOr(_) | Job::TextOr(_) => "value_or",
        Job::Pass => "pass",
    }
}

/// What a job takes.
pub(crate) fn wanted_by(job: &Job) -> &'static str
    ensures { result.now ≡ wanted_by job.now }
{
    match job {
        Job::Add(_) | Job::Sub(_) | Job::Mul(_) | Job::Div(_) => "int",
        Job::Neg | Job::Within { .. } | Job::Iota | Job::Show => "int",
        Job::Index => "the elements of a bulk",
        Job::Fail(_) | Job::Give(_) | Job::Pass => "any data",
        Job::Sum => "ints and rows",
        Job::Append(_) | Job::Parse => "text",
        Job::Join => "texts",
        Job::Length => "text or row",
        Job::At(_) => "more data than its i",
        Job::IntOr(_) => "optional-int",
        Job::TextOr(_) => "optional-text",
    }
}

/// What a kind is called.
pub(crate) fn shown_kind(kind: Kind) -> &'static str
    ensures { result.now ≡ shown_kind kind }
{
    match kind {
        Kind::Int => "int",
        Kind::Text => "text",
        Kind::Row => "row",
        Kind::MaybeInt => "optional-int",
        Kind::MaybeText => "optional-text",
    }
}

/// The names of kinds, with blanks between them.
fn joined_names(alloc: Global, kinds: &[Kind]) -> Result<String, AllocError>
    ensures { IfOk result (λ text. string_bytes text ≡ joined_names kinds.now) }
{
    let mut names = Vec::new(alloc);
    for kind in kinds {
        names.push(shown_kind(*kind))?;
    }
    let text = joined(alloc, &names, " ")?;
    Ok(text)
}

/// Kinds by their names.
fn kind_names(alloc: Global, kinds: &[Kind]) -> Result<String, AllocError>
    ensures { IfOk result (λ text. string_bytes text ≡ kind_names kinds.now) }
{
    if kinds.is_empty() {
        String::from_str(alloc, "no data")
    } else {
        joined_names(alloc, kinds)
    }
}

/// A shape: the names of its kinds.
pub(crate) fn shape_text(alloc: Global, shape: &Option<KindList>) -> Result<String, AllocError>
    ensures { IfOk result (λ text. string_bytes text ≡ shape_text shape.now) }
{
    match shape {
        Some(kinds) => kind_names(alloc, kinds.as_slice()),
        None => String::from_str(alloc, "no value"),
    }
}
