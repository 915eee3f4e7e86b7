//! What is wrong with the keys of a plan file beside its nodes.
ghost use Rattle.std.specs.Prelude.{◌≡◌, IfOk, codes, map, string_bytes};
ghost use Rattle.serde_json.specs.View.{view};
ghost use Rattle.plan_parts.specs.Objects.{number_at};
ghost use Rattle.plan_reader.specs.Plans.{input_at, on_error_at, plan_keys, scope_at, stop_at, version_read};
ghost use Rattle.plan_reasons.specs.Own.{faults_of};
ghost use Rattle.plan_reasons.specs.Settings.{excluded, rule, settings_wrong, wrong_setting};

use crate::own::{Fault, faults_of, key_faults};
use crate::part::Part;
use crate::sentence::{unknown_key, wrong_at};
use exec_value::Kind;
use node_tree::ScopeKind;
use plan_parts::{
    FORM_FAULT, Faults, NAME_FAULT, NO_FAULT, Reading, count_of, named, number_at, text_at,
};
use plan_shape::MOST_STOP_AFTER;
use serde_json::Value;
use std::alloc::{AllocError, Global};

/// The keys of a plan file.
fn plan_keys() -> &'static [&'static str]
    ensures { map (λ key. key.now) result.now ≡ plan_keys }
{
    &[
        "input",
        "on_error",
        "root",
        "scope",
        "stop_after",
        "version",
    ]
}

/// What is wrong with the version.
fn version_faults(value: &Value) -> Faults
    ensures { result ≡ faults_of (version_read (number_at (codes "version") (view value.now))) }
{
    match number_at(value, "version") {
        Reading::Good(number) => {
            if number == 1 || number == 2 {
                NO_FAULT
            } else {
                NAME_FAULT
            }
        }
        Reading::Bad(faults) => faults,
    }
}

/// What is wrong with the kind of the records.
fn input_faults(value: &Value) -> Faults
    ensures { result ≡ faults_of (input_at (view value.now)) }
{
    let kinds = [("int", Kind::Int), ("text", Kind::Text), ("row", Kind::Row)];
    match text_at(value, "input") {
        Some(name) => faults_of(Reading::known(named(&kinds, name))),
        None => FORM_FAULT,
    }
}

/// What is wrong with the kind of the scope.
fn scope_faults(value: &Value) -> Faults
    ensures { result ≡ faults_of (scope_at (view value.now)) }
{
    let kinds = [
        ("simple", ScopeKind::Simple),
        ("counting", ScopeKind::Counting),
    ];
    match value.get("scope") {
        Some(scope) => match scope.as_str() {
            Some(name) => faults_of(Reading::known(named(&kinds, name))),
            None => FORM_FAULT,
        },
        None => NO_FAULT,
    }
}

/// What is wrong with the rule that requests a stop after a record.
fn stop_faults(value: &Value) -> Faults
    ensures { result ≡ faults_of (stop_at (view value.now)) }
{
    match value.get("stop_after") {
        Some(stop) => match stop.as_i64() {
            Some(number) => faults_of(count_of(number, 1, MOST_STOP_AFTER)),
            None => FORM_FAULT,
        },
        None => NO_FAULT,
    }
}

/// What is wrong with the rule that may request one after an error.
fn on_error_faults(value: &Value) -> Faults
    ensures { result ≡ faults_of (on_error_at (view value.now)) }
{
    match value.get("on_error") {
        Some(rule) => match rule.as_str() {
            Some(name) => faults_of(Reading::known(named(&[("go", false), ("stop", true)], name))),
            None => FORM_FAULT,
        },
        None => NO_FAULT,
    }
}

/// The first of the settings that has the fault; where none has it the root isn't there.
fn wrong_setting(fault: Fault, value: &Value) -> Part
    ensures { result ≡ wrong_setting fault (view value.now) }
{
    if fault.is_in(version_faults(value)) {
        Part::Version
    } else if fault.is_in(input_faults(value)) {
        Part::Input
    } else if fault.is_in(scope_faults(value)) {
        Part::Scope
    } else if fault.is_in(stop_faults(value)) {
        Part::StopAfter
    } else if fault.is_in(on_error_faults(value)) {
        Part::OnError
    } else {
        Part::Root
    }
}

/// What is wrong with the keys of a plan that have this fault: the word that is wrong, and what was
/// wanted there.
#[tactic(auto, unfolding(crate::specs::Settings::settings_wrong))]
pub fn settings_wrong(alloc: Global, fault: Fault, value: &Value) -> Result<String, AllocError>
    ensures { IfOk result (λ text. string_bytes text ≡ settings_wrong fault (view value.now)) }
{
    if fault.is_in(key_faults(value, plan_keys())) {
        unknown_key(alloc, "a plan", plan_keys(), value)
    } else {
        wrong_at(alloc, "a plan", wrong_setting(fault, value), value)
    }
}

/// Which rule excludes a simple scope.
fn rule(value: &Value) -> &'static str
    ensures { result.now ≡ rule (view value.now) }
{
    match value.get("stop_after") {
        Some(_) => "stop_after",
        None => "on_error",
    }
}

/// The settings exclude each other: a scope that takes no stop request, and a rule that makes one.
pub fn excluded(alloc: Global, value: &Value) -> Result<String, AllocError>
    ensures { IfOk result (λ text. string_bytes text ≡ excluded (view value.now)) }
{
    let rule = rule(value);
    format!(in alloc; "a simple scope takes no stop request, and \"{rule}\" makes one")
}
