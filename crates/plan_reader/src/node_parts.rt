//! What a node is made of beside its children.
ghost use Rattle.std.specs.Prelude.{◌≡◌, IsTrue, IfOk};
ghost use Rattle.serde_json.specs.View.{view};
ghost use Rattle.plan_rules.specs.declared.node.Node.{Node};
ghost use Rattle.plan_rules.specs.Images.{has_maybe};
ghost use Rattle.plan_shape.specs.Conditions.{MeetsConditions};
ghost use Rattle.plan_parts.specs.Reading.{IfGood};
ghost use Rattle.plan_reader.specs.NodeParts.{adaptor_node, context_at, leaf_node, let_node, of_at, of_named, context_named, query_named, query_at};

use crate::node_word::{Adaptor, Leaf, Let};
use exec_value::Kind;
use node_tree::NodeList;
use plan_parts::{
    FORM_FAULT, NAME_FAULT, Reading, constants_at, count_at, job_at, name_at, named, text_at,
};
use plan_rules::{Context, Node, NodeId, Query};
use plan_shape::MOST_TURNS;
use serde_json::Value;
use std::alloc::{AllocError, Global};

/// A node without children.
pub fn leaf_node(alloc: Global, leaf: Leaf, value: &Value) -> Result<Reading<Node>, AllocError>
    ensures value { IfOk result (λ reading. reading ≡ leaf_node leaf (view value.now)) }
    ensures conditions { IfOk result (λ reading. IfGood reading MeetsConditions) }
{
    match leaf {
        Leaf::Input => Ok(Reading::Good(Node::Input)),
        Leaf::Just => Ok(constants_at(alloc, value, "values")?.map(Node::Just)),
        Leaf::JustError => Ok(name_at(alloc, value, "error")?.map(Node::JustError)),
        Leaf::JustStopped => Ok(Reading::Good(Node::JustStopped)),
        Leaf::Schedule => Ok(context_at(value).map(Node::Schedule)),
        Leaf::Delay => Ok(count_at(value, "turns", 0, MOST_TURNS).map(Node::Delay)),
        Leaf::ReadEnv => Ok(query_at(value).map(Node::ReadEnv)),
    }
}

/// A node over this child.
pub fn adaptor_node(
    alloc: Global,
    adaptor: Adaptor,
    value: &Value,
    child: NodeId,
) -> Result<Reading<Node>, AllocError>
    ensures value { IfOk result
        (λ reading. reading ≡ adaptor_node adaptor (view value.now) child) }
    ensures conditions { IfOk result (λ reading. IfGood reading MeetsConditions) }
{
    match adaptor {
        Adaptor::Then => Ok(job_at(alloc, value, "job")?.map(|job| Node::Then { child, job })),
        Adaptor::UponError => Ok(job_at(alloc, value, "job")?.map(|job| Node::UponError {
            child,
            job,
        })),
        Adaptor::UponStopped => Ok(job_at(alloc, value, "job")?.map(|job| Node::UponStopped {
            child,
            job,
        })),
        Adaptor::StartsOn => Ok(context_at(value).map(|on| Node::StartsOn { on, child })),
        Adaptor::ContinuesOn => Ok(context_at(value).map(|on| Node::ContinuesOn { child, on })),
        Adaptor::StoppedAsOptional => Ok(of_at(value).map(|of| Node::StoppedAsOptional {
            child,
            of,
        })),
        Adaptor::StoppedAsError => Ok(name_at(alloc, value, "error")?.map(
            |error| Node::StoppedAsError { child, error },
        )),
        Adaptor::Unstoppable => Ok(Reading::Good(Node::Unstoppable { child })),
    }
}

/// A node over this child and these bodies.
pub fn let_node(
    alloc: Global,
    binding: Let,
    value: &Value,
    child: NodeId,
    bodies: NodeList,
) -> Result<Reading<Node>, AllocError>
    ensures value { IfOk result
        (λ reading. reading ≡ let_node binding (view value.now) child bodies) }
    ensures conditions { IfOk result (λ reading. IfGood reading MeetsConditions) }
{
    let made = job_at(alloc, value, "pick")?.map(|pick| match binding {
        Let::Value => Node::LetValue {
            child,
            pick,
            bodies,
        },
        Let::Error => Node::LetError {
            child,
            pick,
            bodies,
        },
        Let::Stopped => Node::LetStopped {
            child,
            pick,
            bodies,
        },
    });
    Ok(made)
}

/// The context at the key `on`.
fn context_at(value: &Value) -> Reading<Context>
    ensures { result ≡ context_at (view value.now) }
{
    match text_at(value, "on") {
        Some(name) => Reading::known(context_named(name)),
        None => Reading::Bad(FORM_FAULT),
    }
}

/// The context of this name.
fn context_named(name: &str) -> Option<Context>
    ensures { result ≡ context_named name.now }
{
    named(&[("loop", Context::Loop), ("pool", Context::Pool)], name)
}

/// The query at the key `query`.
fn query_at(value: &Value) -> Reading<Query>
    ensures { result ≡ query_at (view value.now) }
{
    match text_at(value, "query") {
        Some(name) => Reading::known(query_named(name)),
        None => Reading::Bad(FORM_FAULT),
    }
}

/// The query of this name.
fn query_named(name: &str) -> Option<Query>
    ensures { result ≡ query_named name.now }
{
    named(&[("stop", Query::Stop), ("record", Query::Record)], name)
}

/// The kind at the key `of`.
fn of_at(value: &Value) -> Reading<Kind>
    ensures value { result ≡ of_at (view value.now) }
    ensures maybe { IfGood result (λ of. IsTrue (has_maybe of)) }
{
    match text_at(value, "of") {
        Some(name) => of_named(name),
        None => Reading::Bad(FORM_FAULT),
    }
}

/// The kind of this name that may be missing.
fn of_named(name: &str) -> Reading<Kind>
    ensures value { result ≡ of_named name.now }
    ensures maybe { IfGood result (λ of. IsTrue (has_maybe of)) }
{
    if name == "int" {
        Reading::Good(Kind::Int)
    } else if name == "text" {
        Reading::Good(Kind::Text)
    } else {
        Reading::Bad(NAME_FAULT)
    }
}
