//! What is said of a key: that it isn't there, takes another value, or isn't known.
ghost use Rattle.std.specs.Prelude.{◌≡◌, IfOk, List, [], map, option_map, unwrap_or, string_bytes};
ghost use Rattle.std.specs.List.{list_any};
ghost use Rattle.std.specs.Str.{bytes_eq};
ghost use Rattle.serde_json.specs.View.{items_view, members_view, view};
ghost use Rattle.plan_parts.specs.Constants.{constant_of};
ghost use Rattle.plan_parts.specs.Objects.{keys_of};
ghost use Rattle.plan_reasons.specs.Own.{faults_of, has};
ghost use Rattle.plan_reasons.specs.Sentences.{IsSaid, bad_constant, first_bad, first_unknown, listed, needs, needs_key, no_object, takes_other, unknown_in, unknown_key, wrong_at, wrong_part, wrong_values};

use crate::own::{Fault, faults_of};
use crate::part::Part;
use crate::shown::{joined, shown, shown_text};
use plan_parts::constant_of;
use serde_json::{Map, Value};
use std::alloc::{AllocError, Global};

/// The value at a key is another than it takes.
fn takes_other(alloc: Global, part: Part, value: &Value) -> Result<String, AllocError>
    ensures { IfOk result (λ text. string_bytes text ≡ takes_other part (view value.now)) }
{
    let key = part.key();
    let wanted = part.wanted();
    let shown = shown(alloc, value)?;
    format!(in alloc; "\"{key}\" takes {wanted}, not {shown}")
}

/// Who has no such key.
fn needs_key(alloc: Global, who: &str, part: Part) -> Result<String, AllocError>
    ensures { IfOk result (λ text. string_bytes text ≡ needs_key who.now part) }
{
    let key = part.key();
    format!(in alloc; "{who} needs the key \"{key}\"")
}

/// Who is no object.
fn no_object(alloc: Global, who: &str, value: &Value) -> Result<String, AllocError>
    ensures { IfOk result (λ text. string_bytes text ≡ no_object who.now (view value.now)) }
{
    let shown = shown(alloc, value)?;
    let text = format!(in alloc; "{who} is an object, not {shown}")?;
    Ok(text)
}

/// Who has no such key, or is no object.
pub(crate) fn needs(
    alloc: Global,
    who: &str,
    part: Part,
    value: &Value,
) -> Result<String, AllocError>
    ensures { IfOk result (λ text. string_bytes text ≡ needs who.now part (view value.now)) }
{
    if value.is_object() {
        needs_key(alloc, who, part)
    } else {
        no_object(alloc, who, value)
    }
}

/// What is wrong at a key.
#[tactic(auto, unfolding(crate::specs::Sentences::wrong_at))]
pub(crate) fn wrong_at(
    alloc: Global,
    who: &str,
    part: Part,
    value: &Value,
) -> Result<String, AllocError>
    ensures { IfOk result (λ text. string_bytes text ≡ wrong_at who.now part (view value.now)) }
{
    match value.get(part.key()) {
        Some(found) => takes_other(alloc, part, found),
        None => needs(alloc, who, part, value),
    }
}

/// Whether a key is one of these.
fn is_known(name: &str, known: &[&str]) -> bool
    ensures { result ≡ list_any (bytes_eq name.now) (map (λ key. key.now) known.now) }
{
    'known: for key in known {
        if name == *key {
            return true;
        }
    }
    false
}

/// The first key that isn't one of these.
fn first_unknown<'a>(members: &'a Map<String, Value>, known: &[&str]) -> Option<&'a str>
    ensures { option_map (λ key. key.now) result ≡ first_unknown
        (map (λ key. key.now) known.now) (keys_of (members_view members.now.entries)) }
{
    let mut found = members.keys();
    'keys: while let Some(name) = found.next() {
        if !is_known(name.as_str(), known) {
            return Some(name.as_str());
        }
    }
    None
}

/// The same of an object; of what is none, or has no such key, it is empty.
fn unknown_in<'a>(value: &'a Value, known: &[&str]) -> &'a str
    ensures { result.now ≡
        unwrap_or (unknown_in (map (λ key. key.now) known.now) (view value.now)) [] }
{
    match value.as_object() {
        Some(members) => match first_unknown(members, known) {
            Some(key) => key,
            None => "",
        },
        None => "",
    }
}

/// Keys one after the other.
fn listed(alloc: Global, keys: &[&str]) -> Result<String, AllocError>
    ensures { IfOk result
        (λ text. string_bytes text ≡ listed (map (λ key. key.now) keys.now)) }
{
    joined(alloc, keys, ", ")
}

/// Who has a key that isn't known, and which are.
#[tactic(auto, unfolding(crate::specs::Sentences::unknown_key))]
pub(crate) fn unknown_key(
    alloc: Global,
    who: &str,
    known: &[&str],
    value: &Value,
) -> Result<String, AllocError>
    ensures { IfOk result (λ text. string_bytes text
        ≡ unknown_key who.now (map (λ key. key.now) known.now) (view value.now)) }
{
    let key = shown_text(alloc, unknown_in(value, known))?;
    let listed = listed(alloc, known)?;
    format!(in alloc; "unknown key {key}; {who} takes {listed}")
}

/// A constant of an array, by its place there.
fn bad_constant(alloc: Global, index: u64, value: &Value) -> Result<String, AllocError>
    ensures { IfOk result (λ text. string_bytes text ≡ bad_constant index (view value.now)) }
{
    let shown = shown(alloc, value)?;
    format!(in alloc;
        "values[{index}] takes an integer of 64 bits, a string of at most 4096 bytes or an array of at most 4096 integers, not {shown}"
    )
}

/// The first of these constants that has the fault.
fn first_bad(alloc: Global, fault: Fault, values: &[Value]) -> Result<Option<String>, AllocError>
    ensures { IfOk result (IsSaid (first_bad fault 0 (items_view values.now))) }
{
    for index in 0..values.len() {
        let value = &values[index];
        if fault.is_in(faults_of(constant_of(alloc, value)?)) {
            return Ok(Some(bad_constant(alloc, index as u64, value)?));
        }
    }
    Ok(None)
}

/// What is wrong with constants: one of them, or how many they are.
#[tactic(auto, unfolding(crate::specs::Sentences::wrong_values))]
fn wrong_values(alloc: Global, fault: Fault, who: &str, value: &Value) -> Result<String, AllocError>
    ensures { IfOk result
        (λ text. string_bytes text ≡ wrong_values fault who.now (view value.now)) }
{
    match value.get("values").and_then(Value::as_array) {
        Some(values) => match first_bad(alloc, fault, values)? {
            Some(text) => Ok(text),
            None => wrong_at(alloc, who, Part::Values, value),
        },
        None => wrong_at(alloc, who, Part::Values, value),
    }
}

/// What is wrong at a key that has the fault.
pub(crate) fn wrong_part(
    alloc: Global,
    fault: Fault,
    who: &str,
    part: Part,
    value: &Value,
) -> Result<String, AllocError>
    ensures { IfOk result
        (λ text. string_bytes text ≡ wrong_part fault who.now part (view value.now)) }
{
    if part.is_values() {
        wrong_values(alloc, fault, who, value)
    } else {
        wrong_at(alloc, who, part, value)
    }
}
