//! Constants and jobs as tokens.
ghost use Rattle.std.specs.Prelude.{◌≡◌, ◌++◌, ◌∷◌, [], All, IfOk, OnOk, map};
ghost use Rattle.serde_json.specs.View.{view};
ghost use Rattle.exec_value.specs.Text.{IsText};
ghost use Rattle.plan_writer.specs.Held.{AreHeld, IsHeldDatum, IsHeldJob, IsLong, IsRow};
ghost use Rattle.plan_writer.specs.Values.{row_data};
ghost use Rattle.plan_notation.specs.Tokens.{constant_word, constants_words, count_word, job_words, later_constants, number_word, text_word};

use crate::words::Words;
use exec_job::Job;
use exec_value::{Data, Datum, Nums, Txt};
use serde_json::Value;
use std::alloc::{AllocError, Global};

/// Adds a number.
#[tactic(auto, using(crate::proofs::Whole::integer_whole))]
fn put_number(n: i64, words: &mut Words) -> Result<(), AllocError>
    ensures words { OnOk result (words.new ≡ words.old ++ number_word n ∷ []) }
    ensures held { IsLong n }
{
    words.put_value(&Value::from(n))
}

/// Adds a count.
pub(crate) fn put_count(n: u32, words: &mut Words) -> Result<(), AllocError>
    ensures { OnOk result (words.new ≡ words.old ++ count_word n ∷ []) }
{
    words.put_value(&Value::from(n))
}

/// Adds a text.
pub(crate) fn put_text(alloc: Global, text: &Txt, words: &mut Words) -> Result<(), AllocError>
    ensures words { OnOk result (words.new ≡ words.old ++ text_word text.now ∷ []) }
    ensures held { IsText text.now }
{
    match str::from_utf8(text.as_bytes()) {
        Ok(text) => words.put_value(&Value::try_from_str(alloc, text)?),
        Err(_) => unreachable!(),
    }
}

/// Adds a constant of a plan.
#[tactic(auto, using(crate::proofs::Whole::row_whole))]
fn put_constant(alloc: Global, datum: &Datum, words: &mut Words) -> Result<(), AllocError>
    ensures words { OnOk result (words.new ≡ words.old ++ constant_word datum.now ∷ []) }
    ensures held { OnOk result (IsHeldDatum datum.now) }
{
    match datum {
        Datum::Int(number) => put_number(*number, words),
        Datum::Text(text) => put_text(alloc, text, words),
        Datum::Row(row) => words.put_value(&row_value(alloc, row)?),
        // No plan has another as a constant.
        _ => words.put_value(&Value::Null),
    }
}

/// The numbers of a row, in an array.
fn row_value(alloc: Global, row: &Nums) -> Result<Value, AllocError>
    ensures value { IfOk result (λ value. view value ≡ row_data row.now) }
    ensures held { OnOk result (IsRow row.now) }
{
    let mut items = Vec::new(alloc);
    for number in row.as_slice() {
        items.push(Value::from(*number))?;
    }
    Ok(Value::Array(items))
}

/// Adds constants, with commas between them.
pub(crate) fn put_list(alloc: Global, values: &Data, words: &mut Words) -> Result<(), AllocError>
    ensures words { OnOk result (words.new ≡ words.old ++ constants_words values.now) }
    ensures held { OnOk result (AreHeld values.now) }
{
    match values.as_slice() {
        [] => Ok(()),
        [first, later @ ..] => {
            put_constant(alloc, first, words)?;
            put_later(alloc, later, words)
        }
    }
}

/// Adds constants, each behind a comma.
fn put_later(alloc: Global, values: &[Datum], words: &mut Words) -> Result<(), AllocError>
    ensures words { OnOk result (words.new ≡ words.old ++ later_constants values.now) }
    ensures held { OnOk result (All IsHeldDatum values.now) }
{
    'values: for value in values {
        words.put(",")?;
        put_constant(alloc, value, words)?;
    }
    Ok(())
}

/// Adds constants, without commas.
fn put_operands(alloc: Global, values: &[Datum], words: &mut Words) -> Result<(), AllocError>
    ensures words { OnOk result (words.new ≡ words.old ++ map constant_word values.now) }
    ensures held { OnOk result (All IsHeldDatum values.now) }
{
    'values: for value in values {
        put_constant(alloc, value, words)?;
    }
    Ok(())
}

/// Adds a job: its name, and then its constants.
pub(crate) fn put_job(alloc: Global, job: &Job, words: &mut Words) -> Result<(), AllocError>
    ensures words { OnOk result (words.new ≡ words.old ++ job_words job.now) }
    ensures held { OnOk result (IsHeldJob job.now) }
{
    match job {
        Job::Add(n) => put_with_number("add", *n, words),
        Job::Sub(n) => put_with_number("sub", *n, words),
        Job::Mul(n) => put_with_number("mul", *n, words),
        Job::Div(n) => put_with_number("div", *n, words),
        Job::Neg => words.put("neg"),
        Job::Within { lo, hi } => {
            put_with_number("within", *lo, words)?;
            put_number(*hi, words)
        }
        Job::Index => words.put("index"),
        Job::Fail(name) => put_with_text(alloc, "fail", name, words),
        Job::Iota => words.put("iota"),
        Job::Sum => words.put("sum"),
        Job::Append(text) => put_with_text(alloc, "append", text, words),
        Job::Join => words.put("join"),
        Job::Length => words.put("length"),
        Job::Parse => words.put("parse"),
        Job::Show => words.put("show"),
        Job::Give(values) => {
            words.put("give")?;
            put_operands(alloc, values.as_slice(), words)
        }
        Job::At(place) => put_with_count("at", *place, words),
        Job::IntOr(n) => put_with_number("value_or", *n, words),
        Job::TextOr(text) => put_with_text(alloc, "value_or", text, words),
        Job::Pass => words.put("pass"),
    }
}

/// Adds a name and a number.
fn put_with_number(name: &str, n: i64, words: &mut Words) -> Result<(), AllocError>
    ensures words { OnOk result (words.new ≡ words.old ++ name.now ∷ number_word n ∷ []) }
    ensures held { IsLong n }
{
    words.put(name)?;
    put_number(n, words)
}

/// Adds a name and a count.
pub(crate) fn put_with_count(name: &str, n: u32, words: &mut Words) -> Result<(), AllocError>
    ensures { OnOk result (words.new ≡ words.old ++ name.now ∷ count_word n ∷ []) }
{
    words.put(name)?;
    put_count(n, words)
}

/// Adds a name and a text.
fn put_with_text(alloc: Global, name: &str, text: &Txt, words: &mut Words) -> Result<(), AllocError>
    ensures words { OnOk result
        (words.new ≡ words.old ++ name.now ∷ text_word text.now ∷ []) }
    ensures held { OnOk result (IsText text.now) }
{
    words.put(name)?;
    put_text(alloc, text, words)
}
