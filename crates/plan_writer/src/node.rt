//! Nodes as JSON values.
ghost use Rattle.std.specs.Prelude.{◌≡◌, All, IfOk, OnOk, Some, slice_get};
ghost use Rattle.serde_json.specs.View.{view, members_view};
ghost use Rattle.plan_shape.specs.Blueprint.{IsPlan};
ghost use Rattle.plan_writer.specs.Nodes.{below_of, children_named, list_data, listed, node_data, with_children};
ghost use Rattle.plan_writer.specs.Order.{IsWritten};
ghost use Rattle.plan_writer.specs.ReadBack.{IsReadBack};

use crate::below::{Below, below_of, listed};
use crate::member::{Members, with};
use crate::own::own_members;
use plan_rules::{Node, NodeId};
use plan_shape::Plan;
use serde_json::Value;
use std::alloc::{AllocError, Global};

/// The node of this number.
#[cycle(write)]
pub(crate) fn node_value(alloc: Global, plan: &Plan, at: NodeId) -> Result<Value, AllocError>
    requires plan { IsPlan plan.now }
    requires written { IsWritten plan.now.nodes at }
    ensures value { IfOk result (λ value. view value ≡ node_data plan.now.nodes at) }
    ensures back { OnOk result (IsReadBack plan.now at) }
{
    let node = plan.node(at);
    let members = own_members(alloc, node)?;
    Ok(Value::Object(with_children(alloc, plan, at, node, members)?))
}

/// The members of this node's object with those of its children.
#[cycle(write)]
fn with_children(
    alloc: Global,
    plan: &Plan,
    at: NodeId,
    node: &Node,
    members: Members,
) -> Result<Members, AllocError>
    requires plan { IsPlan plan.now }
    requires node_is { slice_get plan.now.nodes at ≡ Some node.now }
    ensures value { IfOk result (λ more. members_view more.entries
        ≡ with_children (node_data plan.now.nodes) (below_of node.now) (listed node.now)
        (members_view members.entries)) }
    ensures back { OnOk result (All (IsReadBack plan.now)
        (children_named (below_of node.now) (listed node.now))) }
{
    match below_of(node) {
        Below::Nothing => Ok(members),
        Below::Child(child) => with(alloc, members, "child", node_value(alloc, plan, child)?),
        Below::ChildAndBodies(child) => {
            let child = node_value(alloc, plan, child)?;
            let bodies = list_value(alloc, plan, at, node)?;
            let members = with(alloc, members, "child", child)?;
            with(alloc, members, "bodies", bodies)
        }
        Below::Children => with(
            alloc,
            members,
            "children",
            list_value(alloc, plan, at, node)?,
        ),
        Below::Pair(first, second) => {
            let first = node_value(alloc, plan, first)?;
            let second = node_value(alloc, plan, second)?;
            let members = with(alloc, members, "first", first)?;
            with(alloc, members, "second", second)
        }
    }
}

/// The children of this node that stand in an array.
#[cycle(write)]
fn list_value(alloc: Global, plan: &Plan, at: NodeId, node: &Node) -> Result<Value, AllocError>
    requires plan { IsPlan plan.now }
    requires node_is { slice_get plan.now.nodes at ≡ Some node.now }
    ensures value { IfOk result (λ value. view value
        ≡ list_data (node_data plan.now.nodes) (listed node.now)) }
    ensures back { OnOk result (All (IsReadBack plan.now) (listed node.now)) }
{
    let mut values = Vec::new(alloc);
    for child in listed(node) {
        values.push(node_value(alloc, plan, *child)?)?;
    }
    Ok(Value::Array(values))
}
