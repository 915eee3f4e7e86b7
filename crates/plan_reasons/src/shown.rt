//! How a value of a file is shown in a sentence.
ghost use Rattle.std.specs.Prelude.{◌≡◌, IfOk, map, string_bytes};
ghost use Rattle.json.specs.Print.{quoted};
ghost use Rattle.serde_json.specs.View.{items_view, view};
ghost use Rattle.plan_reasons.specs.Shown.{joined, shown, shown_array, shown_other, shown_text};

use serde_json::Value;
use std::alloc::{AllocError, Global};

/// The most bytes of a string that is shown as it is.
pub(crate) const MOST_SHOWN: usize = 64;

/// Words one after the other, with a separator between them.
#[tactic(auto, using(crate::proofs::Joined::joined_map))]
pub(crate) fn joined(alloc: Global, words: &[&str], separator: &str) -> Result<String, AllocError>
    ensures { IfOk result (λ text. string_bytes text
        ≡ joined separator.now (map (λ word. word.now) words.now)) }
{
    let text = words.join(alloc, separator)?;
    Ok(text)
}

/// A string as JSON has it.
fn quoted(alloc: Global, text: &str) -> Result<String, AllocError>
    ensures { IfOk result (λ shown. string_bytes shown ≡ quoted text.now) }
{
    Value::try_from_str(alloc, text)?.to_string(alloc)
}

/// A string, as JSON has it where it isn't long.
pub(crate) fn shown_text(alloc: Global, text: &str) -> Result<String, AllocError>
    ensures { IfOk result (λ shown. string_bytes shown ≡ shown_text text.now) }
{
    let length = text.len();
    if length > MOST_SHOWN {
        format!(in alloc; "a string of {length} bytes")
    } else {
        quoted(alloc, text)
    }
}

/// An array, by its length.
#[tactic(auto, using(crate::proofs::Counted::counted))]
fn shown_array(alloc: Global, values: &[Value]) -> Result<String, AllocError>
    ensures { IfOk result (λ shown. string_bytes shown ≡ shown_array (items_view values.now)) }
{
    let length = values.len();
    format!(in alloc; "an array of {length}")
}

/// What is no integer of 64 bits, no string and no array.
fn shown_other(value: &Value) -> &'static str
    ensures { result.now ≡ shown_other (view value.now) }
{
    if value.is_object() {
        "an object"
    } else if value.is_number() {
        "another number"
    } else if value.is_boolean() {
        "a boolean"
    } else {
        "null"
    }
}

/// A value of a file.
#[tactic(auto, unfolding(crate::specs::Shown::shown))]
pub(crate) fn shown(alloc: Global, value: &Value) -> Result<String, AllocError>
    ensures { IfOk result (λ text. string_bytes text ≡ shown (view value.now)) }
{
    if let Some(number) = value.as_i64() {
        return format!(in alloc; "{number}");
    }
    if let Some(text) = value.as_str() {
        return shown_text(alloc, text);
    }
    match value.as_array() {
        Some(values) => shown_array(alloc, values),
        None => String::from_str(alloc, shown_other(value)),
    }
}
