//! Nodes as tokens.
ghost use Rattle.std.specs.Prelude.{◌≡◌, ◌++◌, ◌∷◌, [], IfOk, OnOk, codes};
ghost use Rattle.plan_writer.specs.Held.{IsHeldNode};
ghost use Rattle.plan_writer.specs.Nodes.{context_name, kind_name, query_name};
ghost use Rattle.plan_notation.specs.Tokens.{text_word};
ghost use Rattle.plan_notation.specs.NodeTokens.{HasHeldNodes, all_words, later_nodes, node_words, nodes_words, words_at};

use crate::adaptors::put_adaptor;
use crate::words::Words;
use crate::written::{put_count, put_list, put_text};
use exec_value::{Kind, Txt};
use plan_rules::{Context, Node, NodeId, Query};
use plan_shape::Plan;
use std::alloc::{AllocError, Global};

/// The tokens of all nodes. Those of a node are made of those of its children, which stand before
/// it.
#[tactic(auto, using(crate::proofs::NodeSteps::words_next, crate::proofs::HeldParts::one_held))]
pub(crate) fn all_words(alloc: Global, plan: &Plan) -> Result<Vec<Words>, AllocError>
    ensures words { IfOk result (λ done. done.items ≡ all_words plan.now.nodes) }
    ensures held { OnOk result (HasHeldNodes plan.now.nodes) }
{
    let mut done = Vec::new(alloc);
    for number in 0..plan.size() {
        let words = node_words(alloc, plan.node(number), &done)?;
        done.push(words)?;
    }
    Ok(done)
}

/// The tokens of a node, by those of the nodes before it.
fn node_words(alloc: Global, node: &Node, done: &[Words]) -> Result<Words, AllocError>
    ensures words { IfOk result (λ words. words ≡ node_words done.now node.now) }
    ensures held { OnOk result (IsHeldNode node.now) }
{
    let mut words = Words::new(alloc);
    put_own(alloc, node, done, &mut words)?;
    Ok(words)
}

/// Adds a node.
fn put_own(alloc: Global, node: &Node, done: &[Words], words: &mut Words) -> Result<(), AllocError>
    ensures words { OnOk result (words.new ≡ words.old ++ node_words done.now node.now) }
    ensures held { OnOk result (IsHeldNode node.now) }
{
    match node {
        Node::Input => words.put("input"),
        Node::Just(values) => {
            words.put_all(&["just", "("])?;
            put_list(alloc, values, words)?;
            words.put(")")
        }
        Node::JustError(error) => {
            words.put("just_error")?;
            put_closed_text(alloc, error, words)
        }
        Node::JustStopped => words.put("just_stopped"),
        Node::Schedule(on) => words.put_all(&["schedule", "(", context_name(*on), ")"]),
        Node::Delay(turns) => {
            words.put_all(&["delay", "("])?;
            put_count(*turns, words)?;
            words.put(")")
        }
        Node::ReadEnv(query) => words.put_all(&["read_env", "(", query_name(*query), ")"]),
        Node::WhenAll { children } => {
            words.put_all(&["when_all", "("])?;
            put_nodes(children.as_slice(), done, words)?;
            words.put(")")
        }
        Node::Ahead { first, second } => {
            words.put_all(&["ahead", "("])?;
            put_node(*first, done, words)?;
            words.put(",")?;
            put_node(*second, done, words)?;
            words.put(")")
        }
        Node::StartsOn { on, child } => {
            words.put_all(&["starts_on", "(", context_name(*on), ","])?;
            put_node(*child, done, words)?;
            words.put(")")
        }
        // A part stands in its bulk.
        Node::Part { .. } => Ok(()),
        node => put_adaptor(alloc, node, done, words),
    }
}

/// Adds a text in brackets.
pub(crate) fn put_closed_text(
    alloc: Global,
    text: &Txt,
    words: &mut Words,
) -> Result<(), AllocError>
    ensures { OnOk result (words.new
        ≡ words.old ++ codes "(" ∷ text_word text.now ∷ codes ")" ∷ []) }
{
    words.put("(")?;
    put_text(alloc, text, words)?;
    words.put(")")
}

/// Adds nodes, with commas between them.
fn put_nodes(nodes: &[NodeId], done: &[Words], words: &mut Words) -> Result<(), AllocError>
    ensures { OnOk result (words.new ≡ words.old ++ nodes_words done.now nodes.now) }
{
    match nodes {
        [] => Ok(()),
        [first, later @ ..] => {
            put_node(*first, done, words)?;
            put_later(later, done, words)
        }
    }
}

/// Adds nodes, each behind a comma.
pub(crate) fn put_later(
    nodes: &[NodeId],
    done: &[Words],
    words: &mut Words,
) -> Result<(), AllocError>
    ensures { OnOk result (words.new ≡ words.old ++ later_nodes done.now nodes.now) }
{
    'nodes: for node in nodes {
        words.put(",")?;
        put_node(*node, done, words)?;
    }
    Ok(())
}

/// Adds the node of this number.
pub(crate) fn put_node(number: NodeId, done: &[Words], words: &mut Words) -> Result<(), AllocError>
    ensures { OnOk result (words.new ≡ words.old ++ words_at done.now number) }
{
    match done.get(number as usize) {
        Some(node) => words.append(node),
        None => Ok(()),
    }
}

/// The name of a context.
pub(crate) fn context_name(on: Context) -> &'static str
    ensures { result.now ≡ context_name on }
{
    match on {
        Context::Loop => "loop",
        Context::Pool => "pool",
    }
}

/// The name of a query.
fn query_name(query: Query) -> &'static str
    ensures { result.now ≡ query_name query }
{
    match query {
        Query::Stop => "stop",
        Query::Record => "record",
    }
}

/// The name of a kind.
pub(crate) fn kind_name(kind: Kind) -> &'static str
    ensures { result.now ≡ kind_name kind }
{
    match kind {
        Kind::Int | Kind::MaybeInt => "int",
        Kind::Text | Kind::MaybeText => "text",
        Kind::Row => "row",
    }
}
