//! A whole plan as a plan file.
ghost use Rattle.std.specs.Prelude.{◌≡◌, ◌≤◌, ◌-◌, IfOk, OnOk, length};
ghost use Rattle.serde_json.specs.View.{view, members_view};
ghost use Rattle.plan_shape.specs.Blueprint.{IsPlan};
ghost use Rattle.plan_reader.specs.PlanFile.{IsPlanOf};
ghost use Rattle.plan_reader.specs.declared.read.TheConstants.{MOST_PLAN_BYTES};
ghost use Rattle.plan_writer.specs.FilePlan.{IsFilePlan};
ghost use Rattle.plan_writer.specs.ReadBack.{IsReadBack};
ghost use Rattle.plan_writer.specs.Canonical.{on_error_name, plan_data, plan_members, plan_text, scope_name, with_stop};

use crate::member::{Members, named, with};
use crate::node::node_value;
use crate::own::kind_name;
use node_tree::ScopeKind;
use plan_rules::Settings;
use plan_shape::Plan;
use serde_json::Value;
use std::alloc::{AllocError, Global};

/// The canonical text of a plan: compact JSON, with the keys of each object in the order of their
/// bytes.
///
/// A plan that a file can say is read back from its text, where that isn't too long. Such a plan's
/// kinds match, its settings don't exclude each other, and its nodes are numbered as a reader
/// numbers them: the children of a node in their order, each with all that stands below it, then a
/// bulk's parts, and then the node.
pub fn write_plan(alloc: Global, plan: &Plan) -> Result<Vec<u8>, AllocError>
    ensures text { IfOk result (λ bytes. bytes.items ≡ plan_text plan.now) }
    ensures read_back { IfOk result (λ bytes. IsFilePlan plan.now
        → length bytes.items ≤ MOST_PLAN_BYTES → IsPlanOf bytes.items plan.now) }
{
    plan_value(alloc, plan)?.to_vec(alloc)
}

/// A plan.
fn plan_value(alloc: Global, plan: &Plan) -> Result<Value, AllocError>
    ensures value { IfOk result (λ value. view value ≡ plan_data plan.now) }
    ensures back { OnOk result (IsReadBack plan.now (length plan.now.nodes - 1)) }
    ensures plan { IsPlan plan.now }
{
    let root = plan.size() - 1;
    let root = node_value(alloc, plan, root)?;
    Ok(Value::Object(plan_members(alloc, plan.settings(), root)?))
}

/// The members of a plan's object.
fn plan_members(alloc: Global, settings: &Settings, root: Value) -> Result<Members, AllocError>
    ensures { IfOk result (λ members. members_view members.entries
        ≡ plan_members settings.now (view root)) }
{
    let members = named(alloc, "input", kind_name(settings.input))?;
    let on_error = Value::try_from_str(alloc, on_error_name(settings.on_error_stop))?;
    let members = with(alloc, members, "on_error", on_error)?;
    let members = with(alloc, members, "root", root)?;
    let scope = Value::try_from_str(alloc, scope_name(settings.scope))?;
    let members = with(alloc, members, "scope", scope)?;
    let members = with(alloc, members, "version", Value::from(settings.version))?;
    with_stop(alloc, settings.stop_after, members)
}

/// The members with the rule of a stop after some records, where it is set.
fn with_stop(
    alloc: Global,
    stop_after: Option<u32>,
    members: Members,
) -> Result<Members, AllocError>
    ensures { IfOk result (λ more. members_view more.entries
        ≡ with_stop stop_after (members_view members.entries)) }
{
    match stop_after {
        Some(records) => with(alloc, members, "stop_after", Value::from(records)),
        None => Ok(members),
    }
}

/// The name of a kind of scope.
fn scope_name(scope: ScopeKind) -> &'static str
    ensures { result.now ≡ scope_name scope }
{
    match scope {
        ScopeKind::Simple => "simple",
        ScopeKind::Counting => "counting",
    }
}

/// What is done on an error.
fn on_error_name(stop: bool) -> &'static str
    ensures { result.now ≡ on_error_name stop }
{
    if stop { "stop" } else { "go" }
}
