//! Which neighbours are equal.
ghost use Rattle.std.specs.Prelude.{◌≡◌, map, IfOk, OnOk};
ghost use Rattle.std.specs.List.{flat_map};
ghost use Rattle.pictures.specs.Adding.{Adds};
ghost use Rattle.pictures.specs.Plans.Folds.{texts_of};
ghost use Rattle.pictures.specs.Plans.Names.{name_of};
ghost use Rattle.pictures.specs.Plans.Shapes.{folds_below, shape_of};

use crate::plans::folds::{Fold, folds_of, put_bytes};
use crate::plans::name::name_of;
use crate::plans::own::put_own;
use crate::text::put_all;
use plan_rules::{Node, NodeId};
use plan_shape::Plan;
use sig_check::{bodies_of, run_by};
use std::alloc::{AllocError, Global};

/// The folds of these nodes, which stand side by side.
pub(crate) fn folds_below(
    alloc: Global,
    plan: &Plan,
    steps: u32,
    numbers: &[NodeId],
) -> Result<Vec<Fold>, AllocError>
    ensures { IfOk result
        (λ folds. folds.items ≡ folds_below plan.now.nodes steps numbers.now) }
{
    let shapes = shapes_of(alloc, plan, steps, numbers)?;
    folds_of(alloc, &shapes)
}

/// The shapes of these nodes.
fn shapes_of(
    alloc: Global,
    plan: &Plan,
    steps: u32,
    numbers: &[NodeId],
) -> Result<Vec<Vec<u8>>, AllocError>
    ensures { IfOk result
        (λ shapes. texts_of shapes.items ≡ map (shape_of plan.now.nodes steps) numbers.now) }
{
    let mut shapes = Vec::new(alloc);
    for number in numbers {
        shapes.push(one_shape(alloc, plan, steps, *number)?)?;
    }
    Ok(shapes)
}

/// The shape of a node.
fn one_shape(alloc: Global, plan: &Plan, steps: u32, number: NodeId) -> Result<Vec<u8>, AllocError>
    ensures { IfOk result (λ shape. shape.items ≡ shape_of plan.now.nodes steps number) }
{
    let mut shape = Vec::new(alloc);
    put_shape(alloc, plan, steps, number, &mut shape)?;
    Ok(shape)
}

/// Adds the name of a node.
fn put_name(node: &Node, text: &mut Vec<u8>) -> Result<(), AllocError>
    ensures { OnOk result (Adds text.old.items text.new.items (name_of node.now)) }
{
    put_bytes(name_of(node).as_bytes(), text)
}

/// Adds the shape of a node: what it says, and the shapes of those below it.
#[cycle(shapes)]
fn put_shape(
    alloc: Global,
    plan: &Plan,
    steps: u32,
    number: NodeId,
    text: &mut Vec<u8>,
) -> Result<(), AllocError>
    ensures { OnOk result (Adds text.old.items text.new.items
        (shape_of plan.now.nodes steps number)) }
{
    if steps == 0 || number >= plan.size() {
        return Ok(());
    }
    let node = plan.node(number);
    put_name(node, text)?;
    put_own(alloc, node, text)?;
    put_all(&["("], text)?;
    let children = run_by(alloc, node)?;
    put_shapes(alloc, plan, steps - 1, &children, text)?;
    put_all(&[";"], text)?;
    put_shapes(alloc, plan, steps - 1, bodies_of(node), text)?;
    put_all(&[")"], text)
}

/// Adds the shapes of nodes.
#[cycle(shapes)]
fn put_shapes(
    alloc: Global,
    plan: &Plan,
    steps: u32,
    numbers: &[NodeId],
    text: &mut Vec<u8>,
) -> Result<(), AllocError>
    ensures { OnOk result (Adds text.old.items text.new.items
        (flat_map (shape_of plan.now.nodes steps) numbers.now)) }
{
    for number in numbers {
        put_shape(alloc, plan, steps, *number, text)?;
    }
    Ok(())
}
