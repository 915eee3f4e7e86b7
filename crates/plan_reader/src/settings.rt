//! The settings of a plan file.
ghost use Rattle.std.specs.Prelude.{◌≡◌, codes};
ghost use Rattle.serde_json.specs.View.{view};
ghost use Rattle.plan_parts.specs.Objects.{number_at};
ghost use Rattle.plan_reader.specs.Plans.{input_at, input_of, is_first_version, on_error_at, on_error_of, scope_at, scope_of, settings_of, stop_at, stop_of, version_of, version_read, with_rules};

use exec_value::Kind;
use node_tree::ScopeKind;
use plan_parts::{FORM_FAULT, NAME_FAULT, Reading, count_of, named, number_at, text_at};
use plan_rules::Settings;
use plan_shape::MOST_STOP_AFTER;
use serde_json::Value;

/// The settings.
#[tactic(auto, unfolding(crate::specs::Plans::settings_of))]
pub(crate) fn settings_of(value: &Value) -> Reading<Settings>
    ensures { result ≡ settings_of (view value.now) }
{
    let kinds = version_at(value).paired(input_at(value));
    let rules = scope_at(value).paired(stop_at(value).paired(on_error_at(value)));
    match kinds.paired(rules) {
        Reading::Good(parts) => Reading::Good(with_rules(parts)),
        Reading::Bad(faults) => Reading::Bad(faults),
    }
}

/// The settings that are made of these parts.
fn with_rules(parts: ((u32, Kind), (ScopeKind, (Option<u32>, bool)))) -> Settings
    ensures { result ≡ with_rules parts }
{
    let ((version, input), (scope, (stop_after, on_error_stop))) = parts;
    Settings {
        version,
        input,
        scope,
        stop_after,
        on_error_stop,
    }
}

/// Whether the version is the number 1.
pub fn is_first_version(value: &Value) -> bool
    ensures { result ≡ is_first_version (view value.now) }
{
    match number_at(value, "version") {
        Reading::Good(number) => number == 1,
        Reading::Bad(_) => false,
    }
}

/// The version.
fn version_at(value: &Value) -> Reading<u32>
    ensures { result ≡ version_read (number_at (codes "version") (view value.now)) }
{
    match number_at(value, "version") {
        Reading::Good(number) => version_of(number),
        Reading::Bad(faults) => Reading::Bad(faults),
    }
}

/// The version of this number.
fn version_of(number: i64) -> Reading<u32>
    ensures { result ≡ version_of number }
{
    if number == 1 {
        Reading::Good(1)
    } else if number == 2 {
        Reading::Good(2)
    } else {
        Reading::Bad(NAME_FAULT)
    }
}

/// The kind of the records.
fn input_at(value: &Value) -> Reading<Kind>
    ensures { result ≡ input_at (view value.now) }
{
    match text_at(value, "input") {
        Some(name) => input_of(name),
        None => Reading::Bad(FORM_FAULT),
    }
}

/// The kind of this name that records may have.
fn input_of(name: &str) -> Reading<Kind>
    ensures { result ≡ input_of name.now }
{
    Reading::known(named(
        &[("int", Kind::Int), ("text", Kind::Text), ("row", Kind::Row)],
        name,
    ))
}

/// The kind of the scope, a counting one where nothing is said.
fn scope_at(value: &Value) -> Reading<ScopeKind>
    ensures { result ≡ scope_at (view value.now) }
{
    match value.get("scope") {
        Some(scope) => match scope.as_str() {
            Some(name) => scope_of(name),
            None => Reading::Bad(FORM_FAULT),
        },
        None => Reading::Good(ScopeKind::Counting),
    }
}

/// The kind of scope of this name.
fn scope_of(name: &str) -> Reading<ScopeKind>
    ensures { result ≡ scope_of name.now }
{
    Reading::known(named(
        &[
            ("simple", ScopeKind::Simple),
            ("counting", ScopeKind::Counting),
        ],
        name,
    ))
}

/// After how many records a stop is requested, if such a rule is set.
fn stop_at(value: &Value) -> Reading<Option<u32>>
    ensures { result ≡ stop_at (view value.now) }
{
    match value.get("stop_after") {
        Some(stop) => stop_of(stop),
        None => Reading::Good(None),
    }
}

/// The rule of this value.
fn stop_of(value: &Value) -> Reading<Option<u32>>
    ensures { result ≡ stop_of (view value.now) }
{
    match value.as_i64() {
        Some(number) => match count_of(number, 1, MOST_STOP_AFTER) {
            Reading::Good(count) => Reading::Good(Some(count)),
            Reading::Bad(faults) => Reading::Bad(faults),
        },
        None => Reading::Bad(FORM_FAULT),
    }
}

/// Whether a stop is requested after the first error; it isn't where nothing is said.
fn on_error_at(value: &Value) -> Reading<bool>
    ensures { result ≡ on_error_at (view value.now) }
{
    match value.get("on_error") {
        Some(rule) => match rule.as_str() {
            Some(name) => on_error_of(name),
            None => Reading::Bad(FORM_FAULT),
        },
        None => Reading::Good(false),
    }
}

/// The rule of this name.
fn on_error_of(name: &str) -> Reading<bool>
    ensures { result ≡ on_error_of name.now }
{
    Reading::known(named(&[("go", false), ("stop", true)], name))
}
