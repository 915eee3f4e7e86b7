//! Whether the nodes of a plan are numbered in the order of a file.
ghost use Rattle.std.specs.Prelude.{◌≡◌, ◌≤◌, ◌↔◌, ◌-◌, ◌++◌, IsTrue, IfOk, OnOk, Some, length, slice_get};
ghost use Rattle.std.specs.List.{flat_map, range_with_len};
ghost use Rattle.plan_shape.specs.Blueprint.{IsPlan};
ghost use Rattle.plan_shape.specs.Children.{part_count};
ghost use Rattle.plan_writer.specs.Nodes.{below_of, children_named, listed};
ghost use Rattle.plan_writer.specs.Order.{IsInFileOrder, IsWritten, file_order};

use crate::below::{Below, below_of, listed};
use plan_rules::{Node, NodeId};
use plan_shape::{BULK_PARTS, Plan};
use std::alloc::{AllocError, Global};

/// Whether the nodes of a plan are numbered as a reader of its text numbers them: the children of a
/// node in their order, each with all that stands below it, then a bulk's parts, and then the node.
pub fn is_in_file_order(alloc: Global, plan: &Plan) -> Result<bool, AllocError>
    ensures { IfOk result (λ is. IsTrue is ↔ IsInFileOrder plan.now.nodes) }
{
    let size = plan.size();
    let mut order = Vec::new(alloc);
    push_order(plan, size - 1, &mut order)?;
    Ok(counts_up(&order, size))
}

/// Whether these are the numbers below a bound, in order.
fn counts_up(numbers: &[NodeId], bound: u32) -> bool
    ensures { IsTrue result ↔ (numbers.now ≡ range_with_len 0 bound) }
{
    for (index, number) in numbers.iter().enumerate() {
        if *number as usize != index {
            return false;
        }
    }
    numbers.len() == bound as usize
}

/// Appends what stands below a node, and then the node.
#[cycle(order)]
fn push_order(plan: &Plan, at: NodeId, order: &mut Vec<NodeId>) -> Result<(), AllocError>
    requires plan { IsPlan plan.now }
    requires written { IsWritten plan.now.nodes at }
    ensures { OnOk result (order.new.items ≡ order.old.items ++ file_order plan.now.nodes at) }
{
    let node = plan.node(at);
    push_children(plan, at, node, order)?;
    push_parts(at, node, order)?;
    order.push(at)?;
    Ok(())
}

/// Appends the children of this node, each behind what stands below it.
#[cycle(order)]
fn push_children(
    plan: &Plan,
    at: NodeId,
    node: &Node,
    order: &mut Vec<NodeId>,
) -> Result<(), AllocError>
    requires plan { IsPlan plan.now }
    requires node_is { slice_get plan.now.nodes at ≡ Some node.now }
    ensures { OnOk result (order.new.items ≡ order.old.items
        ++ flat_map (file_order plan.now.nodes)
        (children_named (below_of node.now) (listed node.now))) }
{
    match below_of(node) {
        Below::Nothing => Ok(()),
        Below::Child(child) => push_order(plan, child, order),
        Below::ChildAndBodies(child) => {
            push_order(plan, child, order)?;
            push_listed(plan, at, node, order)
        }
        Below::Children => push_listed(plan, at, node, order),
        Below::Pair(first, second) => {
            push_order(plan, first, order)?;
            push_order(plan, second, order)
        }
    }
}

/// The same of the children that stand in an array.
#[cycle(order)]
fn push_listed(
    plan: &Plan,
    at: NodeId,
    node: &Node,
    order: &mut Vec<NodeId>,
) -> Result<(), AllocError>
    requires plan { IsPlan plan.now }
    requires node_is { slice_get plan.now.nodes at ≡ Some node.now }
    ensures { OnOk result (order.new.items
        ≡ order.old.items ++ flat_map (file_order plan.now.nodes) (listed node.now)) }
{
    for child in listed(node) {
        push_order(plan, *child, order)?;
    }
    Ok(())
}

/// Appends the parts of a bulk, which stand just before it.
fn push_parts(at: NodeId, node: &Node, order: &mut Vec<NodeId>) -> Result<(), AllocError>
    requires { part_count node.now ≤ at }
    ensures { OnOk result (order.new.items
        ≡ order.old.items ++ range_with_len (at - part_count node.now) (part_count node.now)) }
{
    if let Node::Bulk { .. } = node {
        for part in at - BULK_PARTS..at {
            order.push(part)?;
        }
    }
    Ok(())
}
