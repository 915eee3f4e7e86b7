//! What is sought in a plan file.
ghost use Rattle.std.specs.Prelude.{◌≡◌, IfOk, string_bytes};
ghost use Rattle.serde_json.specs.View.{view};
ghost use Rattle.plan_places.specs.Seeking.{bars, below, is_ahead_word, is_it, reason_of};

use plan_reader::{Adaptor, NodeWord};
use plan_reasons::{Fault, bars_bulk, node_word_at, node_wrong, other_job, own_faults};
use serde_json::Value;
use std::alloc::{AllocError, Global};

/// What is sought in a plan file.
#[derive(Clone, Copy)]
pub(crate) enum Sought {
    /// A node that has this fault, apart from the nodes below it.
    Own(Fault),
    /// A bulk whose job isn't over elements.
    OtherJob,
    /// A node so many levels below.
    Below(u32),
    /// An `ahead`, where one above bars it.
    Ahead(bool),
}

/// Whether it is an `ahead`.
fn is_ahead_word(word: Option<NodeWord>) -> bool
    ensures { result ≡ is_ahead_word word }
{
    matches!(word, Some(NodeWord::Ahead))
}

/// Whether the value is a node that is sought.
pub(crate) fn is_it(
    alloc: Global,
    is_first: bool,
    sought: Sought,
    value: &Value,
) -> Result<bool, AllocError>
    ensures { IfOk result (λ is. is ≡ is_it is_first sought (view value.now)) }
{
    match sought {
        Sought::Own(fault) => Ok(fault.is_in(own_faults(alloc, is_first, value)?)),
        Sought::OtherJob => bars_bulk(alloc, node_word_at(is_first, value), value),
        Sought::Below(left) => Ok(left == 0),
        Sought::Ahead(barred) => Ok(barred && is_ahead_word(node_word_at(is_first, value))),
    }
}

/// Why a node that is sought is refused.
#[tactic(auto, unfolding(crate::specs::Seeking::reason_of))]
pub(crate) fn reason_of(
    alloc: Global,
    is_first: bool,
    sought: Sought,
    value: &Value,
) -> Result<String, AllocError>
    ensures { IfOk result
        (λ text. string_bytes text ≡ reason_of is_first sought (view value.now)) }
{
    match sought {
        Sought::Own(fault) => node_wrong(alloc, fault, is_first, value),
        Sought::OtherJob => other_job(alloc, value),
        Sought::Below(_) => String::from_str(alloc, "the node stands more than 56 deep"),
        Sought::Ahead(_) => String::from_str(
            alloc,
            "an ahead stands below a when_all, an unstoppable or another ahead",
        ),
    }
}

/// Whether no `ahead` may stand below a node of this name.
fn bars(word: NodeWord) -> bool
    ensures { result ≡ bars word }
{
    match word {
        NodeWord::Adaptor(Adaptor::Unstoppable) | NodeWord::WhenAll | NodeWord::Ahead => true,
        _ => false,
    }
}

/// What is sought below a node of this name.
pub(crate) fn below(sought: Sought, word: NodeWord) -> Sought
    ensures { result ≡ below sought word }
{
    match sought {
        Sought::Below(left) => Sought::Below(left.saturating_sub(1)),
        Sought::Ahead(barred) => Sought::Ahead(barred || bars(word)),
        other => other,
    }
}
