//! What a node's object says beside its children.
ghost use Rattle.std.specs.Prelude.{◌≡◌, IfOk, OnOk, codes};
ghost use Rattle.serde_json.specs.Data.{string};
ghost use Rattle.serde_json.specs.View.{view, members_view};
ghost use Rattle.plan_shape.specs.Conditions.{IsLawfulJob, MeetsConditions};
ghost use Rattle.plan_writer.specs.Held.{IsHeldJob, IsHeldNode};
ghost use Rattle.plan_writer.specs.Jobs.{job_data};
ghost use Rattle.plan_writer.specs.Nodes.{context_name, kind_name, node_with, own_members, plain_node, query_name};

use crate::constant::constants_value;
use crate::job::job_value;
use crate::member::{Members, named, text_value, with};
use exec_job::Job;
use exec_value::{Kind, Txt};
use plan_rules::{Context, Node, Query};
use serde_json::Value;
use std::alloc::{AllocError, Global};

/// The members of a node's object beside its children.
pub(crate) fn own_members(alloc: Global, node: &Node) -> Result<Members, AllocError>
    requires { MeetsConditions node.now }
    ensures value { IfOk result
        (λ members. members_view members.entries ≡ own_members node.now) }
    ensures held { OnOk result (IsHeldNode node.now) }
{
    match node {
        Node::Input => plain(alloc, "input"),
        Node::Just(values) => node_with(alloc, "just", "values", constants_value(alloc, values)?),
        Node::JustError(error) => with_text(alloc, "just_error", error),
        Node::JustStopped => plain(alloc, "just_stopped"),
        Node::Schedule(on) => with_word(alloc, "schedule", "on", context_name(*on)),
        Node::Delay(turns) => node_with(alloc, "delay", "turns", Value::from(*turns)),
        Node::ReadEnv(query) => with_word(alloc, "read_env", "query", query_name(*query)),
        Node::Then { job, .. } => with_job(alloc, "then", "job", job),
        Node::UponError { job, .. } => with_job(alloc, "upon_error", "job", job),
        Node::UponStopped { job, .. } => with_job(alloc, "upon_stopped", "job", job),
        Node::LetValue { pick, .. } => with_job(alloc, "let_value", "pick", pick),
        Node::LetError { pick, .. } => with_job(alloc, "let_error", "pick", pick),
        Node::LetStopped { pick, .. } => with_job(alloc, "let_stopped", "pick", pick),
        Node::StartsOn { on, .. } => with_word(alloc, "starts_on", "on", context_name(*on)),
        Node::ContinuesOn { on, .. } => with_word(alloc, "continues_on", "on", context_name(*on)),
        Node::StoppedAsOptional { of, .. } => {
            with_word(alloc, "stopped_as_optional", "of", kind_name(*of))
        }
        Node::StoppedAsError { error, .. } => with_text(alloc, "stopped_as_error", error),
        Node::Bulk { job, .. } => with_job(alloc, "bulk", "job", job),
        Node::WhenAll { .. } => plain(alloc, "when_all"),
        Node::Part { .. } => unreachable!(),
        Node::Unstoppable { .. } => plain(alloc, "unstoppable"),
        Node::Ahead { .. } => plain(alloc, "ahead"),
    }
}

/// A node's name alone.
fn plain(alloc: Global, name: &str) -> Result<Members, AllocError>
    ensures { IfOk result (λ members. members_view members.entries ≡ plain_node name.now) }
{
    named(alloc, "do", name)
}

/// A node's name and one more member.
fn node_with(alloc: Global, name: &str, key: &str, value: Value) -> Result<Members, AllocError>
    ensures { IfOk result (λ members. members_view members.entries
        ≡ node_with name.now key.now (view value)) }
{
    let members = named(alloc, "do", name)?;
    with(alloc, members, key, value)
}

/// A node's name and the name of an error.
fn with_text(alloc: Global, name: &str, error: &Txt) -> Result<Members, AllocError>
    ensures { IfOk result (λ members. members_view members.entries
        ≡ node_with name.now (codes "error") (string error.now)) }
{
    node_with(alloc, name, "error", text_value(alloc, error)?)
}

/// A node's name and a word.
fn with_word(alloc: Global, name: &str, key: &str, word: &str) -> Result<Members, AllocError>
    ensures { IfOk result (λ members. members_view members.entries
        ≡ node_with name.now key.now (string word.now)) }
{
    node_with(alloc, name, key, Value::try_from_str(alloc, word)?)
}

/// A node's name and a job.
fn with_job(alloc: Global, name: &str, key: &str, job: &Job) -> Result<Members, AllocError>
    requires { IsLawfulJob job.now }
    ensures value { IfOk result (λ members. members_view members.entries
        ≡ node_with name.now key.now (job_data job.now)) }
    ensures held { OnOk result (IsHeldJob job.now) }
{
    node_with(alloc, name, key, job_value(alloc, job)?)
}

/// The name of a context.
fn context_name(on: Context) -> &'static str
    ensures { result.now ≡ context_name on }
{
    match on {
        Context::Loop => "loop",
        Context::Pool => "pool",
    }
}

/// The name of a query.
fn query_name(query: Query) -> &'static str
    ensures { result.now ≡ query_name query }
{
    match query {
        Query::Stop => "stop",
        Query::Record => "record",
    }
}

/// The name of a kind; a maybe kind is called as the kind that may be missing.
pub(crate) fn kind_name(kind: Kind) -> &'static str
    ensures { result.now ≡ kind_name kind }
{
    match kind {
        Kind::Int | Kind::MaybeInt => "int",
        Kind::Text | Kind::MaybeText => "text",
        Kind::Row => "row",
    }
}
