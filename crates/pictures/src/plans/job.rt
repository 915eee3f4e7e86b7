//! Data and jobs, in the words of a plan file.
ghost use Rattle.std.specs.Prelude.{◌≡◌, ◌++◌, map, IfOk, OnOk};
ghost use Rattle.std.specs.Fmt.{signed_decimal};
ghost use Rattle.std.specs.List.{flat_map};
ghost use Rattle.pictures.specs.Adding.{Adds};
ghost use Rattle.pictures.specs.Plans.Folds.{texts_of};
ghost use Rattle.pictures.specs.Plans.Quoted.{quoted_text};
ghost use Rattle.pictures.specs.Plans.Words.{datum_text, job_text, later_text, numbers_text, values_text};

use crate::plans::folds::{put_bytes, put_folded};
use crate::plans::quoted::put_quoted;
use crate::text::put_all;
use exec_job::Job;
use exec_value::{Datum, Txt};
use itoa::Buffer;
use std::alloc::{AllocError, Global};

/// Adds a job: its name, and what it has beside the data.
pub(crate) fn put_job(alloc: Global, job: &Job, text: &mut Vec<u8>) -> Result<(), AllocError>
    ensures { OnOk result (Adds text.old.items text.new.items (job_text job.now)) }
{
    match job {
        Job::Add(n) => put_with_number("add ", *n, text),
        Job::Sub(n) => put_with_number("sub ", *n, text),
        Job::Mul(n) => put_with_number("mul ", *n, text),
        Job::Div(n) => put_with_number("div ", *n, text),
        Job::Neg => put_all(&["neg"], text),
        Job::Within { lo, hi } => put_within(*lo, *hi, text),
        Job::Index => put_all(&["index"], text),
        Job::Fail(name) => put_with_text("fail ", name, text),
        Job::Iota => put_all(&["iota"], text),
        Job::Sum => put_all(&["sum"], text),
        Job::Append(more) => put_with_text("append ", more, text),
        Job::Join => put_all(&["join"], text),
        Job::Length => put_all(&["length"], text),
        Job::Parse => put_all(&["parse"], text),
        Job::Show => put_all(&["show"], text),
        Job::Give(values) => put_with_values(alloc, "give", values.as_slice(), text),
        Job::At(place) => put_at(*place, text),
        Job::IntOr(n) => put_with_number("value_or ", *n, text),
        Job::TextOr(other) => put_with_text("value_or ", other, text),
        Job::Pass => put_all(&["pass"], text),
    }
}

/// Adds a word, and a number behind it.
fn put_with_number(word: &str, number: i64, text: &mut Vec<u8>) -> Result<(), AllocError>
    ensures { OnOk result (Adds text.old.items text.new.items
        (word.now ++ signed_decimal number)) }
{
    let mut buffer = Buffer::new();
    put_bytes(word.as_bytes(), text)?;
    put_bytes(buffer.format(number).as_bytes(), text)
}

/// Adds `within`, from the first number to the second.
fn put_within(lo: i64, hi: i64, text: &mut Vec<u8>) -> Result<(), AllocError>
    ensures { OnOk result (Adds text.old.items text.new.items (job_text (Job.Within lo hi))) }
{
    let mut first = Buffer::new();
    let mut second = Buffer::new();
    put_all(&["within ", first.format(lo), " ", second.format(hi)], text)
}

/// Adds `at` a place.
fn put_at(place: u32, text: &mut Vec<u8>) -> Result<(), AllocError>
    ensures { OnOk result (Adds text.old.items text.new.items (job_text (Job.At place))) }
{
    let mut buffer = Buffer::new();
    put_all(&["at ", buffer.format(place)], text)
}

/// Adds a word, and a text behind it.
pub(crate) fn put_with_text(word: &str, shown: &Txt, text: &mut Vec<u8>) -> Result<(), AllocError>
    ensures { OnOk result (Adds text.old.items text.new.items
        (word.now ++ quoted_text shown.now)) }
{
    put_bytes(word.as_bytes(), text)?;
    put_quoted(shown.as_bytes(), text)
}

/// Adds a word, and values behind it.
pub(crate) fn put_with_values(
    alloc: Global,
    word: &str,
    values: &[Datum],
    text: &mut Vec<u8>,
) -> Result<(), AllocError>
    ensures { OnOk result (Adds text.old.items text.new.items
        (word.now ++ values_text values.now)) }
{
    let texts = texts_of_data(alloc, values)?;
    put_bytes(word.as_bytes(), text)?;
    put_folded(alloc, &texts, text)
}

/// The texts of data.
fn texts_of_data(alloc: Global, values: &[Datum]) -> Result<Vec<Vec<u8>>, AllocError>
    ensures { IfOk result (λ texts. texts_of texts.items ≡ map datum_text values.now) }
{
    let mut texts = Vec::new(alloc);
    for value in values {
        texts.push(text_of_datum(alloc, value)?)?;
    }
    Ok(texts)
}

/// The text of a datum.
fn text_of_datum(alloc: Global, datum: &Datum) -> Result<Vec<u8>, AllocError>
    ensures { IfOk result (λ text. text.items ≡ datum_text datum.now) }
{
    let mut text = Vec::new(alloc);
    put_datum(datum, &mut text)?;
    Ok(text)
}

/// Adds a datum.
fn put_datum(datum: &Datum, text: &mut Vec<u8>) -> Result<(), AllocError>
    ensures { OnOk result (Adds text.old.items text.new.items (datum_text datum.now)) }
{
    match datum {
        Datum::Int(n) | Datum::SomeInt(n) => put_with_number("", *n, text),
        Datum::Text(shown) | Datum::SomeText(shown) => put_quoted(shown.as_bytes(), text),
        Datum::Row(numbers) => put_row(numbers.as_slice(), text),
        Datum::Nothing => put_all(&["null"], text),
    }
}

/// Adds a row.
fn put_row(numbers: &[i64], text: &mut Vec<u8>) -> Result<(), AllocError>
    ensures { OnOk result (Adds text.old.items text.new.items (numbers_text numbers.now)) }
{
    match numbers {
        [] => put_all(&["[]"], text),
        [first, later @ ..] => {
            put_with_number("[", *first, text)?;
            put_later(later, text)?;
            put_all(&["]"], text)
        }
    }
}

/// Adds the numbers of a row behind the first.
fn put_later(numbers: &[i64], text: &mut Vec<u8>) -> Result<(), AllocError>
    ensures { OnOk result (Adds text.old.items text.new.items (flat_map later_text numbers.now)) }
{
    for number in numbers {
        put_with_number(",", *number, text)?;
    }
    Ok(())
}
