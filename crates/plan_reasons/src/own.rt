//! What is wrong with a node of a plan file apart from the nodes below it.
ghost use Rattle.std.specs.Prelude.{◌≡◌, IfOk, map};
ghost use Rattle.serde_json.specs.View.{items_view, view};
ghost use Rattle.plan_shape.specs.Conditions.{is_within};
ghost use Rattle.plan_reasons.specs.Own.{bars_bulk, child_faults, count_faults, faults_of, has, is_other_job, key_faults, list_faults, own_faults, part_faults, node_word_at};

use exec_job::Job;
use plan_parts::{
    FORM_FAULT, Faults, LIMIT_FAULT, NAME_FAULT, NO_FAULT, Reading, has_unknown_key, job_at,
    text_at,
};
use plan_reader::{NodeWord, adaptor_node, leaf_node, node_keys, node_named};
use plan_shape::{FEWEST_CHILDREN, MOST_BODIES, MOST_CHILDREN};
use serde_json::Value;
use std::alloc::{AllocError, Global};

/// A cause that a node is refused for.
#[derive(Clone, Copy)]
pub enum Fault {
    Form,
    Name,
    Limit,
}

impl Fault {
    /// Whether it is among these faults.
    pub fn is_in(self, faults: Faults) -> bool
        ensures { result ≡ has self faults }
    {
        match self {
            Fault::Form => faults.form,
            Fault::Name => faults.name,
            Fault::Limit => faults.limit,
        }
    }
}

/// The node that the name of a value is of, in a plan of version 1 or of a later one.
pub fn node_word_at(is_first: bool, value: &Value) -> Option<NodeWord>
    ensures { result ≡ node_word_at is_first (view value.now) }
{
    match text_at(value, "do") {
        Some(name) => node_named(is_first, name),
        None => None,
    }
}

/// What is wrong with a part.
pub fn faults_of<A: Drop>(reading: Reading<A>) -> Faults
    ensures { result ≡ faults_of reading }
{
    match reading {
        Reading::Good(_) => NO_FAULT,
        Reading::Bad(faults) => faults,
    }
}

/// A key that isn't one of these.
pub(crate) fn key_faults(value: &Value, known: &[&str]) -> Faults
    ensures { result ≡ key_faults (map (λ key. key.now) known.now) (view value.now) }
{
    if has_unknown_key(value, known) {
        NAME_FAULT
    } else {
        NO_FAULT
    }
}

/// The key of a node below isn't there.
pub(crate) fn child_faults(value: &Value, key: &str) -> Faults
    ensures { result ≡ child_faults key.now (view value.now) }
{
    match value.get(key) {
        Some(_) => NO_FAULT,
        None => FORM_FAULT,
    }
}

/// Whether a length is within these bounds.
fn is_within(fewest: usize, most: usize, length: usize) -> bool
    ensures { result ≡ is_within fewest most length }
{
    fewest <= length && length <= most
}

/// These nodes of an array are too few or too many.
fn count_faults(fewest: usize, most: usize, nodes: &[Value]) -> Faults
    ensures { result ≡ count_faults fewest most (items_view nodes.now) }
{
    if is_within(fewest, most, nodes.len()) {
        NO_FAULT
    } else {
        LIMIT_FAULT
    }
}

/// The key of an array of nodes isn't there, or they are too few or too many.
pub(crate) fn list_faults(value: &Value, key: &str, fewest: usize, most: usize) -> Faults
    ensures { result ≡ list_faults fewest most key.now (view value.now) }
{
    match value.get(key).and_then(Value::as_array) {
        Some(nodes) => count_faults(fewest, most, nodes),
        None => FORM_FAULT,
    }
}

/// What is wrong with a node of this name: its own parts, and the keys of those below it.
fn part_faults(alloc: Global, word: NodeWord, value: &Value) -> Result<Faults, AllocError>
    ensures { IfOk result (λ faults. faults ≡ part_faults word (view value.now)) }
{
    match word {
        NodeWord::Leaf(leaf) => Ok(faults_of(leaf_node(alloc, leaf, value)?)),
        NodeWord::Adaptor(adaptor) => {
            let own = faults_of(adaptor_node(alloc, adaptor, value, 0)?);
            Ok(child_faults(value, "child").both(own))
        }
        NodeWord::Let(_) => {
            let pick = faults_of(job_at(alloc, value, "pick")?);
            let bodies = list_faults(value, "bodies", 1, MOST_BODIES);
            Ok(child_faults(value, "child").both(bodies.both(pick)))
        }
        NodeWord::Bulk => {
            let job = faults_of(job_at(alloc, value, "job")?);
            Ok(child_faults(value, "child").both(job))
        }
        NodeWord::WhenAll => Ok(list_faults(value, "children", FEWEST_CHILDREN, MOST_CHILDREN)),
        NodeWord::Ahead => {
            let second = child_faults(value, "second");
            Ok(child_faults(value, "first").both(second))
        }
    }
}

/// What is wrong with a node: it needs a name that is a string, and one that isn't known is its
/// only fault.
#[tactic(auto, unfolding(crate::specs::Own::own_faults))]
pub fn own_faults(alloc: Global, is_first: bool, value: &Value) -> Result<Faults, AllocError>
    ensures { IfOk result (λ faults. faults ≡ own_faults is_first (view value.now)) }
{
    match text_at(value, "do") {
        Some(name) => match node_named(is_first, name) {
            Some(word) => {
                let parts = part_faults(alloc, word, value)?;
                Ok(key_faults(value, node_keys(word)).both(parts))
            }
            None => Ok(NAME_FAULT),
        },
        None => Ok(FORM_FAULT),
    }
}

/// Whether a job was read, and is none over elements.
fn is_other_job(reading: &Reading<Job>) -> bool
    ensures { result ≡ is_other_job reading.now }
{
    match reading {
        Reading::Good(job) => !job.is_element(),
        Reading::Bad(_) => false,
    }
}

/// Whether the node is a bulk with such a job.
pub fn bars_bulk(alloc: Global, word: Option<NodeWord>, value: &Value) -> Result<bool, AllocError>
    ensures { IfOk result (λ bars. bars ≡ bars_bulk word (view value.now)) }
{
    match word {
        Some(NodeWord::Bulk) => match job_at(alloc, value, "job") {
            Err(error) => Err(error),
            Ok(reading) => {
                let bars = is_other_job(&reading);
                drop(reading);
                Ok(bars)
            }
        },
        _ => Ok(false),
    }
}
