//! What is wrong with a node of a plan file.
ghost use Rattle.std.specs.Prelude.{◌≡◌, IfOk, string_bytes};
ghost use Rattle.serde_json.specs.View.{view};
ghost use Rattle.plan_reasons.specs.Nodes.{adaptor_part, adaptor_wrong, known_wrong, leaf_part, let_wrong, named_wrong, unknown_node, node_wrong, nodes, parts_wrong};

use crate::job::job_wrong_at;
use crate::own::{Fault, child_faults, key_faults, list_faults};
use crate::part::Part;
use crate::sentence::{needs, unknown_key, wrong_at, wrong_part};
use crate::shown::shown_text;
use plan_parts::text_at;
use plan_reader::{Adaptor, Leaf, NodeWord, node_keys, node_named};
use plan_shape::MOST_BODIES;
use serde_json::Value;
use std::alloc::{AllocError, Global};

/// The nodes that version 1 has, or all.
fn nodes(is_first: bool) -> &'static str
    ensures { result.now ≡ nodes is_first }
{
    if is_first {
        "nodes: input, just, just_error, just_stopped, schedule, delay, read_env, then, upon_error, \
upon_stopped, let_value, let_error, let_stopped, starts_on, continues_on, stopped_as_optional, \
stopped_as_error, bulk, when_all"
    } else {
        "nodes: input, just, just_error, just_stopped, schedule, delay, read_env, then, upon_error, \
upon_stopped, let_value, let_error, let_stopped, starts_on, continues_on, stopped_as_optional, \
stopped_as_error, bulk, when_all, \
unstoppable, ahead"
    }
}

/// A node whose name isn't known, or only in version 2.
fn unknown_node(alloc: Global, is_first: bool, name: &str) -> Result<String, AllocError>
    ensures { IfOk result (λ text. string_bytes text ≡ unknown_node is_first name.now) }
{
    let shown = shown_text(alloc, name)?;
    if node_named(false, name).is_some() {
        format!(in alloc; "{shown} is of version 2")
    } else {
        let nodes = nodes(is_first);
        format!(in alloc; "unknown node {shown}; {nodes}")
    }
}

/// The part of a leaf beside its name. Two leaves have none.
fn leaf_part(leaf: Leaf) -> Part
    ensures { result ≡ leaf_part leaf }
{
    match leaf {
        Leaf::Input | Leaf::JustStopped => Part::Do,
        Leaf::Just => Part::Values,
        Leaf::JustError => Part::Error,
        Leaf::Schedule => Part::On,
        Leaf::Delay => Part::Turns,
        Leaf::ReadEnv => Part::Query,
    }
}

/// The part of an adaptor beside its name and its child.
fn adaptor_part(adaptor: Adaptor) -> Part
    ensures { result ≡ adaptor_part adaptor }
{
    match adaptor {
        Adaptor::Then | Adaptor::UponError | Adaptor::UponStopped => Part::Job,
        Adaptor::StartsOn | Adaptor::ContinuesOn => Part::On,
        Adaptor::StoppedAsOptional => Part::Of,
        Adaptor::StoppedAsError => Part::Error,
        Adaptor::Unstoppable => Part::Child,
    }
}

/// What is wrong with an adaptor that has its child.
fn adaptor_wrong(
    alloc: Global,
    fault: Fault,
    who: &str,
    adaptor: Adaptor,
    value: &Value,
) -> Result<String, AllocError>
    ensures { IfOk result
        (λ text. string_bytes text ≡ adaptor_wrong fault who.now adaptor (view value.now)) }
{
    match adaptor {
        Adaptor::Then | Adaptor::UponError | Adaptor::UponStopped => {
            job_wrong_at(alloc, fault, false, who, Part::Job, value)
        }
        _ => wrong_at(alloc, who, adaptor_part(adaptor), value),
    }
}

/// What is wrong with a let that has its child: its bodies, or its pick.
fn let_wrong(alloc: Global, fault: Fault, who: &str, value: &Value) -> Result<String, AllocError>
    ensures { IfOk result
        (λ text. string_bytes text ≡ let_wrong fault who.now (view value.now)) }
{
    if fault.is_in(list_faults(value, "bodies", 1, MOST_BODIES)) {
        wrong_at(alloc, who, Part::Bodies, value)
    } else {
        job_wrong_at(alloc, fault, false, who, Part::Pick, value)
    }
}

/// What is wrong with a node of this name, whose keys are known.
fn parts_wrong(
    alloc: Global,
    fault: Fault,
    who: &str,
    word: NodeWord,
    value: &Value,
) -> Result<String, AllocError>
    ensures { IfOk result
        (λ text. string_bytes text ≡ parts_wrong fault who.now word (view value.now)) }
{
    let no_child = fault.is_in(child_faults(value, "child"));
    match word {
        NodeWord::Leaf(leaf) => wrong_part(alloc, fault, who, leaf_part(leaf), value),
        NodeWord::Adaptor(adaptor) => {
            if no_child {
                needs(alloc, who, Part::Child, value)
            } else {
                adaptor_wrong(alloc, fault, who, adaptor, value)
            }
        }
        NodeWord::Let(_) => {
            if no_child {
                needs(alloc, who, Part::Child, value)
            } else {
                let_wrong(alloc, fault, who, value)
            }
        }
        NodeWord::Bulk => {
            if no_child {
                needs(alloc, who, Part::Child, value)
            } else {
                job_wrong_at(alloc, fault, true, who, Part::Job, value)
            }
        }
        NodeWord::WhenAll => wrong_at(alloc, who, Part::Children, value),
        NodeWord::Ahead => {
            if fault.is_in(child_faults(value, "first")) {
                needs(alloc, who, Part::First, value)
            } else {
                needs(alloc, who, Part::Second, value)
            }
        }
    }
}

/// The same, where its keys may have the fault.
fn known_wrong(
    alloc: Global,
    fault: Fault,
    who: &str,
    word: NodeWord,
    value: &Value,
) -> Result<String, AllocError>
    ensures { IfOk result
        (λ text. string_bytes text ≡ known_wrong fault who.now word (view value.now)) }
{
    if fault.is_in(key_faults(value, node_keys(word))) {
        unknown_key(alloc, who, node_keys(word), value)
    } else {
        parts_wrong(alloc, fault, who, word, value)
    }
}

/// What is wrong with a node that has a name.
fn named_wrong(
    alloc: Global,
    fault: Fault,
    is_first: bool,
    value: &Value,
    name: &str,
) -> Result<String, AllocError>
    ensures { IfOk result
        (λ text. string_bytes text ≡ named_wrong fault is_first (view value.now) name.now) }
{
    match node_named(is_first, name) {
        Some(word) => known_wrong(alloc, fault, name, word, value),
        None => unknown_node(alloc, is_first, name),
    }
}

/// What is wrong with a node that has this fault, in a plan of version 1 or of a later one: the
/// word that is wrong, and what was wanted there.
#[tactic(auto, unfolding(crate::specs::Nodes::node_wrong))]
pub fn node_wrong(
    alloc: Global,
    fault: Fault,
    is_first: bool,
    value: &Value,
) -> Result<String, AllocError>
    ensures { IfOk result
        (λ text. string_bytes text ≡ node_wrong fault is_first (view value.now)) }
{
    match text_at(value, "do") {
        Some(name) => named_wrong(alloc, fault, is_first, value, name),
        None => wrong_at(alloc, "a node", Part::Do, value),
    }
}
