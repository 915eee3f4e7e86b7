//! Counts, texts, error names and words.
ghost use Rattle.std.specs.Prelude.{◌≡◌, ◌≤◌, IsTrue, IfOk};
ghost use Rattle.std.specs.List.{list_all};
ghost use Rattle.serde_json.specs.View.{view};
ghost use Rattle.exec_value.specs.ErrorName.{is_error_name, is_name_byte};
ghost use Rattle.plan_parts.specs.Reading.{IfGood};
ghost use Rattle.plan_parts.specs.Scalars.{count_at, count_of, name_at, name_of, txt_of};

use crate::object::{number_at, text_at};
use crate::reading::{FORM_FAULT, LIMIT_FAULT, Reading};
use exec_value::{ERROR_NAME_BYTES, RecordFault, Txt, is_error_name};
use serde_json::Value;
use std::alloc::{AllocError, Global};

/// The greatest place that the job `at` may name.
pub const MOST_PLACE: u32 = 63;

/// The number at a key, from `fewest` to `most`.
pub fn count_at(value: &Value, key: &str, fewest: u32, most: u32) -> Reading<u32>
    ensures value { result ≡ count_at key.now fewest most (view value.now) }
    ensures most { IfGood result (λ count. count ≤ most) }
{
    match number_at(value, key) {
        Reading::Good(number) => count_of(number, fewest, most),
        Reading::Bad(faults) => Reading::Bad(faults),
    }
}

/// A number, where it is from `fewest` to `most`.
pub fn count_of(number: i64, fewest: u32, most: u32) -> Reading<u32>
    ensures value { result ≡ count_of fewest most number }
    ensures most { IfGood result (λ count. count ≤ most) }
{
    if number < i64::from(fewest) || number > i64::from(most) {
        Reading::Bad(LIMIT_FAULT)
    } else {
        Reading::Good(number as u32)
    }
}

/// The error name at a key.
pub fn name_at(alloc: Global, value: &Value, key: &str) -> Result<Reading<Txt>, AllocError>
    ensures value { IfOk result (λ reading. reading ≡ name_at key.now (view value.now)) }
    ensures name { IfOk result (λ reading. IfGood reading (λ name. IsTrue (is_error_name name))) }
{
    match text_at(value, key) {
        Some(text) => name_of(alloc, text),
        None => Ok(Reading::Bad(FORM_FAULT)),
    }
}

/// A string as an error name.
fn name_of(alloc: Global, text: &str) -> Result<Reading<Txt>, AllocError>
    ensures value { IfOk result (λ reading. reading ≡ name_of text.now) }
    ensures name { IfOk result (λ reading. IfGood reading (λ name. IsTrue (is_error_name name))) }
{
    if is_error_name(text.as_bytes()) {
        Ok(Reading::Good(Txt::from_text(alloc, text)?))
    } else if text.len() > ERROR_NAME_BYTES && are_name_bytes(text.as_bytes()) {
        Ok(Reading::Bad(LIMIT_FAULT))
    } else {
        Ok(Reading::Bad(FORM_FAULT))
    }
}

/// Whether an error name may have each of these bytes.
fn are_name_bytes(bytes: &[u8]) -> bool
    ensures { result ≡ list_all is_name_byte bytes.now }
{
    bytes.iter().all(|byte| is_name_byte(*byte))
}

/// Whether an error name may have this byte.
fn is_name_byte(byte: u8) -> bool
    ensures { result ≡ is_name_byte byte }
{
    byte.is_ascii_alphanumeric() || b"-_.@".contains(&byte)
}

/// A string as a text.
pub(crate) fn txt_of(alloc: Global, text: &str) -> Result<Reading<Txt>, AllocError>
    ensures { IfOk result (λ reading. reading ≡ txt_of text.now) }
{
    match Txt::from_bytes(alloc, text.as_bytes()) {
        Ok(txt) => Ok(Reading::Good(txt)),
        Err(RecordFault::Bad) => Ok(Reading::Bad(LIMIT_FAULT)),
        Err(RecordFault::NoMemory) => Err(AllocError),
    }
}
