//! How a builder adds a node.
ghost use Rattle.std.specs.Prelude.{◌≡◌, ◌+◌, ◌≤◌, ◌∷◌, [], ◌++◌, None, Err, vec_len, vec_capacity, OnOk};
ghost use Rattle.plan_shape.specs.Added.{parts_of};
ghost use Rattle.plan_rules.specs.Children.{named_by};
ghost use Rattle.plan_shape.specs.Conditions.{MeetsConditions};
ghost use Rattle.plan_shape.specs.Depths.{depth_of, depth_over};
ghost use Rattle.plan_shape.specs.Refusals.{Adds, fault_of};
ghost use Rattle.plan_builder.specs.Adding.{Allows};

use crate::builder::PlanBuilder;
use crate::named::{has_lawful_count, named, part_count};
use crate::position::{Position, append_positions};
use crate::room::append;
use plan_rules::{Node, NodeId};
use plan_shape::BuildFault;
use std::alloc::AllocError;

/// What a call of a builder answers: the number of the new node, or why there is none.
pub type Built = Result<NodeId, BuildFault>;

// Makes room for so many more nodes and their positions.
fn reserve(
    nodes: &mut Vec<Node>,
    positions: &mut Vec<Position>,
    more: usize,
) -> Result<(), AllocError>
    ensures nodes { nodes.new.items ≡ nodes.old.items }
    ensures positions { positions.new.items ≡ positions.old.items }
    ensures node_room { OnOk result (vec_len nodes.new + more ≤ vec_capacity nodes.new) }
    ensures position_room { OnOk result
        (vec_len positions.new + more ≤ vec_capacity positions.new) }
{
    nodes.reserve(more)?;
    positions.reserve(more)
}

// Appends a node behind so many parts, where there is room.
fn append_node(nodes: &mut Vec<Node>, node: Node, number: NodeId, parts: u32)
    requires { vec_len nodes.old + parts + 1 ≤ vec_capacity nodes.old }
    ensures { nodes.new.items ≡ nodes.old.items ++ (parts_of number parts ++ node ∷ []) }
{
    for part in 0..parts {
        append(nodes, Node::Part { bulk: number, part });
    }
    append(nodes, node);
}

// The answer to a node that is refused, which is dropped by a call: at the end of a scope each of
// its kinds is dropped in place.
fn refused(node: Node, fault: BuildFault) -> Built
    ensures { result ≡ Err fault }
{
    drop(node);
    Err(fault)
}

impl PlanBuilder {
    /// Adds a node, unless it is refused. The calls that are named for the nodes add theirs so.
    pub fn add(&mut self, node: Node) -> Built
        requires { MeetsConditions node }
        ensures { Adds self.old self.new node result }
    {
        match self.check_node(&node) {
            Ok(depth) => self.push(node, depth),
            Err(fault) => refused(node, fault),
        }
    }

    // The depth of a new node, or why it is refused.
    fn check_node(&self, node: &Node) -> Result<u32, BuildFault>
        ensures { Allows self.now node.now result }
    {
        if !has_lawful_count(node) {
            return Err(BuildFault::TooManyChildren);
        }
        let (front, back) = named(node);
        self.check(front, back, part_count(node))
    }

    // Adds a node that isn't refused.
    fn push(&mut self, node: Node, depth: u32) -> Built
        requires conditions { MeetsConditions node }
        requires allowed { fault_of self.old node ≡ None }
        requires depth { depth ≡ depth_over (depth_of self.old) (named_by node) }
        ensures { Adds self.old self.new node result }
    {
        let parts = part_count(&node);
        let Ok(()) = reserve(&mut self.nodes, &mut self.positions, parts as usize + 1) else {
            return refused(node, BuildFault::NoMemory);
        };
        let number = self.nodes.len() as u32 + parts;
        let (front, back) = named(&node);
        append_positions(&mut self.positions, front, back, number, parts, depth);
        append_node(&mut self.nodes, node, number, parts);
        Ok(number)
    }
}
