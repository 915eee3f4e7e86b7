//! Objects of JSON, by their keys.
ghost use Rattle.std.specs.Prelude.{◌≡◌, map, option_map};
ghost use Rattle.std.specs.List.{list_any};
ghost use Rattle.std.specs.Str.{bytes_eq};
ghost use Rattle.serde_json.specs.View.{view, members_view};
ghost use Rattle.plan_parts.specs.Objects.{keys_of, has_unknown, has_unknown_key, number_at, text_at, with_keys};

use crate::reading::{FORM_FAULT, NAME_FAULT, Reading};
use serde_json::{Map, Value};

/// The string at a key.
pub fn text_at<'a>(value: &'a Value, key: &str) -> Option<&'a str>
    ensures { option_map (λ text. text.now) result ≡ text_at key.now (view value.now) }
{
    value.get(key).and_then(Value::as_str)
}

/// The number at a key: a JSON integer that an `i64` holds.
pub fn number_at(value: &Value, key: &str) -> Reading<i64>
    ensures { result ≡ number_at key.now (view value.now) }
{
    match value.get(key).and_then(Value::as_i64) {
        Some(number) => Reading::Good(number),
        None => Reading::Bad(FORM_FAULT),
    }
}

/// Whether an object has a key that isn't one of these.
pub fn has_unknown_key(value: &Value, known: &[&str]) -> bool
    ensures { result ≡ has_unknown_key (map (λ key. key.now) known.now) (view value.now) }
{
    match value.as_object() {
        Some(members) => has_unknown(members, known),
        None => false,
    }
}

/// Whether one of the keys isn't one of these.
fn has_unknown(members: &Map<String, Value>, known: &[&str]) -> bool
    ensures { result ≡ has_unknown (map (λ key. key.now) known.now)
        (keys_of (members_view members.now.entries)) }
{
    let mut found = members.keys();
    'keys: while let Some(name) = found.next() {
        if !is_known(name.as_str(), known) {
            return true;
        }
    }
    false
}

/// Whether a key is one of these.
fn is_known(name: &str, known: &[&str]) -> bool
    ensures { result ≡ list_any (bytes_eq name.now) (map (λ key. key.now) known.now) }
{
    'known: for key in known {
        if name == *key {
            return true;
        }
    }
    false
}

/// A reading of an object's parts, whose keys are these: another key is a fault.
pub fn with_keys<A: Drop>(known: &[&str], value: &Value, reading: Reading<A>) -> Reading<A>
    ensures { result ≡ with_keys (map (λ key. key.now) known.now) (view value.now) reading }
{
    if has_unknown_key(value, known) {
        reading.blamed(NAME_FAULT)
    } else {
        reading
    }
}
