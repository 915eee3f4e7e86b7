//! The path of a node of a plan by its number.
ghost use Rattle.std.specs.Prelude.{◌≡◌, ◌<◌, IfOk, IfSome, length, nat_le, position};
ghost use Rattle.std.specs.Option.{option_or};
ghost use Rattle.plan_places.specs.declared.path.Key.TheVariants.{Child, Bodies};
ghost use Rattle.plan_places.specs.Told.{numbered_place};
ghost use Rattle.plan_places.specs.Ways.{step_among, step_in, step_to, way};

use crate::path::{Key, at_step};
use crate::place::at_path;
use plan_rules::{Node, NodeId};
use plan_shape::{MOST_DEPTH, Plan};
use std::alloc::{AllocError, Global};

/// A step from a node to one below it: its number, the key, and where it stands in an array there.
#[derive(Clone, Copy)]
pub(crate) struct Step {
    pub(crate) node: NodeId,
    pub(crate) key: Key,
    pub(crate) index: Option<u64>,
}

/// The step to the child at a key, if the node of this number is there.
fn step_in(number: NodeId, key: Key, child: NodeId) -> Option<Step>
    ensures { result ≡ step_in number key child }
{
    if number <= child {
        Some(Step {
            node: child,
            key,
            index: None,
        })
    } else {
        None
    }
}

/// The place of the first child whose number isn't smaller.
fn place_among(number: NodeId, children: &[NodeId]) -> Option<usize>
    ensures place { result ≡ position (nat_le number) children.now }
    ensures within { IfSome result (λ index. index < length children.now) }
{
    children.iter().position(|child| number <= *child)
}

/// The step to the first child in an array, if the node of this number is there.
fn step_among(number: NodeId, key: Key, children: &[NodeId]) -> Option<Step>
    ensures { result ≡ step_among number key children.now }
{
    match place_among(number, children) {
        Some(index) => Some(Step {
            node: children[index],
            key,
            index: Some(index as u64),
        }),
        None => None,
    }
}

/// The step of a let.
fn step_below(number: NodeId, child: NodeId, bodies: &[NodeId]) -> Option<Step>
    ensures { result ≡
        option_or (step_in number Child child) (step_among number Bodies bodies.now) }
{
    match step_in(number, Key::Child, child) {
        Some(step) => Some(step),
        None => step_among(number, Key::Bodies, bodies),
    }
}

/// The step from a node towards the node of this number.
fn step_to(number: NodeId, node: &Node) -> Option<Step>
    ensures { result ≡ step_to number node.now }
{
    match node {
        Node::Then { child, .. } | Node::Bulk { child, .. } => step_in(number, Key::Child, *child),
        Node::UponError { child, .. } => step_in(number, Key::Child, *child),
        Node::UponStopped { child, .. } => step_in(number, Key::Child, *child),
        Node::StartsOn { child, .. } => step_in(number, Key::Child, *child),
        Node::ContinuesOn { child, .. } => step_in(number, Key::Child, *child),
        Node::StoppedAsOptional { child, .. } => step_in(number, Key::Child, *child),
        Node::StoppedAsError { child, .. } => step_in(number, Key::Child, *child),
        Node::Unstoppable { child } => step_in(number, Key::Child, *child),
        Node::LetValue { child, bodies, .. } => step_below(number, *child, bodies.as_slice()),
        Node::LetError { child, bodies, .. } => step_below(number, *child, bodies.as_slice()),
        Node::LetStopped { child, bodies, .. } => step_below(number, *child, bodies.as_slice()),
        Node::WhenAll { children } => step_among(number, Key::Children, children.as_slice()),
        Node::Ahead { first, second } => match step_in(number, Key::First, *first) {
            Some(step) => Some(step),
            None => step_in(number, Key::Second, *second),
        },
        _ => None,
    }
}

/// The path of the node of this number, from that of a node at or above it on, at most so many
/// levels down; of a part of a bulk that of the bulk.
fn way(
    alloc: Global,
    plan: &Plan,
    levels: u32,
    at: NodeId,
    path: Vec<u8>,
    number: NodeId,
) -> Result<Vec<u8>, AllocError>
    ensures { IfOk result
        (λ text. text.items ≡ way plan.now.nodes levels at path.items number) }
{
    if levels == 0 {
        return Ok(path);
    }
    if at == number {
        return Ok(path);
    }
    if at >= plan.size() {
        return Ok(path);
    }
    match step_to(number, plan.node(at)) {
        Some(step) => {
            let next = at_step(alloc, &path, step.key, step.index)?;
            way(alloc, plan, levels - 1, step.node, next, number)
        }
        None => Ok(path),
    }
}

/// The place of the node of this number.
pub(crate) fn numbered_place(
    alloc: Global,
    plan: &Plan,
    number: NodeId,
) -> Result<Vec<u8>, AllocError>
    ensures { IfOk result (λ text. text.items ≡ numbered_place plan.now.nodes number) }
{
    let root = Vec::from_slice(alloc, b"root")?;
    let path = way(alloc, plan, MOST_DEPTH, plan.size() - 1, root, number)?;
    at_path(alloc, &path)
}
