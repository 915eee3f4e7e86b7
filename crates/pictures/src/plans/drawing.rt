//! What is drawn of a node, and of those below it.
ghost use Rattle.std.specs.Prelude.{◌≡◌, ◌<◌, length, OnOk};
ghost use Rattle.pictures.specs.Adding.{Adds};
ghost use Rattle.pictures.specs.Plans.Drawing.{arrow_to, arrows, body_arrow_to, body_arrows, box_at, drawn_each, drawn_fold, drawn_from, first_of_fold};

use crate::plans::ends::{end_of, end_of_children, home_below};
use crate::plans::folds::Fold;
use crate::plans::home::Home;
use crate::plans::lines::{
    put_arrow, put_body_arrow, put_box_end, put_box_node, put_source_line, put_value_line,
};
use crate::plans::shape::folds_below;
use plan_rules::{Node, NodeId};
use plan_shape::Plan;
use sig_check::{Sigs, bodies_of, run_by};
use std::alloc::{AllocError, Global};

/// A box that is to be drawn: the number of its node, how many equal neighbours it stands for, and
/// where these are started.
#[derive(Clone, Copy)]
pub(crate) struct Spot {
    pub(crate) number: NodeId,
    pub(crate) count: usize,
    pub(crate) start: Home,
}

/// Nodes that stand side by side: their folds, and where they are all started.
#[derive(Clone, Copy)]
struct Row<'a> {
    numbers: &'a [NodeId],
    folds: &'a [Fold],
    start: Home,
}

/// Adds the box of a node, which completes there.
fn put_box(
    alloc: Global,
    plan: &Plan,
    sigs: &Sigs,
    spot: Spot,
    end: Home,
    text: &mut Vec<u8>,
) -> Result<(), AllocError>
    requires within { spot.number < length plan.now.nodes }
    requires known { length sigs.now ≡ length plan.now.nodes }
    ensures { OnOk result (Adds text.old.items text.new.items
        (box_at plan.now.nodes sigs.now spot end)) }
{
    let sig = sigs.of(spot.number);
    put_box_node(alloc, spot.number, plan.node(spot.number), spot.count, text)?;
    put_source_line(plan.tree().nearest(spot.number), text)?;
    put_value_line(alloc, &sig.value, text)?;
    put_box_end(sig, spot.start, end, text)
}

/// The first of the nodes of a fold.
fn first_of_fold(numbers: &[NodeId], fold: Fold) -> NodeId
    ensures { result ≡ first_of_fold numbers.now fold }
{
    match numbers.get(fold.at) {
        Some(number) => *number,
        None => 0,
    }
}

/// Adds the arrow from a node to a child, the first of a fold.
fn put_arrow_to(
    number: NodeId,
    children: &[NodeId],
    fold: Fold,
    text: &mut Vec<u8>,
) -> Result<(), AllocError>
    ensures { OnOk result (Adds text.old.items text.new.items
        (arrow_to number children.now fold)) }
{
    put_arrow(number, first_of_fold(children, fold), text)
}

/// Adds the arrows from a node to its children: one for each fold.
fn put_arrows(
    number: NodeId,
    children: &[NodeId],
    folds: &[Fold],
    text: &mut Vec<u8>,
) -> Result<(), AllocError>
    ensures { OnOk result (Adds text.old.items text.new.items
        (arrows number children.now folds.now)) }
{
    for fold in folds {
        put_arrow_to(number, children, *fold, text)?;
    }
    Ok(())
}

/// Adds the arrow from a node to a body, the first of a fold.
fn put_body_arrow_to(
    number: NodeId,
    bodies: &[NodeId],
    fold: Fold,
    text: &mut Vec<u8>,
) -> Result<(), AllocError>
    ensures { OnOk result (Adds text.old.items text.new.items
        (body_arrow_to number bodies.now fold)) }
{
    put_body_arrow(number, first_of_fold(bodies, fold), fold, text)
}

/// Adds the arrows from a node to its bodies: one for each fold.
fn put_body_arrows(
    number: NodeId,
    bodies: &[NodeId],
    folds: &[Fold],
    text: &mut Vec<u8>,
) -> Result<(), AllocError>
    ensures { OnOk result (Adds text.old.items text.new.items
        (body_arrows number bodies.now folds.now)) }
{
    for fold in folds {
        put_body_arrow_to(number, bodies, *fold, text)?;
    }
    Ok(())
}

/// Adds what is drawn of a node, as far as so many steps down tell: its box, its arrows, its
/// children and its bodies.
#[cycle(drawing)]
pub(crate) fn draw_from(
    alloc: Global,
    plan: &Plan,
    sigs: &Sigs,
    steps: u32,
    spot: Spot,
    text: &mut Vec<u8>,
) -> Result<(), AllocError>
    requires { length sigs.now ≡ length plan.now.nodes }
    ensures { OnOk result (Adds text.old.items text.new.items
        (drawn_from plan.now.nodes sigs.now steps spot.number spot.count spot.start)) }
{
    if steps == 0 || spot.number >= plan.size() {
        return Ok(());
    }
    let end = end_of(alloc, plan, steps, spot.number, spot.start)?;
    put_box(alloc, plan, sigs, spot, end, text)?;
    let node = plan.node(spot.number);
    let run = run_by(alloc, node)?;
    let children = run.as_slice();
    let bodies = bodies_of(node);
    let folded = folds_below(alloc, plan, steps - 1, children)?;
    let child_folds = folded.as_slice();
    let folded_bodies = folds_below(alloc, plan, steps - 1, bodies)?;
    let body_folds = folded_bodies.as_slice();
    put_arrows(spot.number, children, child_folds, text)?;
    put_body_arrows(spot.number, bodies, body_folds, text)?;
    let start = home_below(node, spot.start);
    let later = end_of_children(alloc, plan, steps - 1, children, start)?;
    let row = Row {
        numbers: children,
        folds: child_folds,
        start,
    };
    draw_each(alloc, plan, sigs, steps - 1, row, text)?;
    let row = Row {
        numbers: bodies,
        folds: body_folds,
        start: later,
    };
    draw_each(alloc, plan, sigs, steps - 1, row, text)
}

/// Adds what is drawn of a fold of nodes that stand side by side: of its first.
#[cycle(drawing)]
fn draw_fold(
    alloc: Global,
    plan: &Plan,
    sigs: &Sigs,
    steps: u32,
    row: Row<'_>,
    fold: Fold,
    text: &mut Vec<u8>,
) -> Result<(), AllocError>
    requires { length sigs.now ≡ length plan.now.nodes }
    ensures { OnOk result (Adds text.old.items text.new.items
        (drawn_fold (drawn_from plan.now.nodes sigs.now steps) row.entry.start
        row.entry.numbers.now fold)) }
{
    let spot = Spot {
        number: first_of_fold(row.numbers, fold),
        count: fold.count,
        start: row.start,
    };
    draw_from(alloc, plan, sigs, steps, spot, text)
}

/// Adds what is drawn of nodes that stand side by side.
#[cycle(drawing)]
fn draw_each(
    alloc: Global,
    plan: &Plan,
    sigs: &Sigs,
    steps: u32,
    row: Row<'_>,
    text: &mut Vec<u8>,
) -> Result<(), AllocError>
    requires { length sigs.now ≡ length plan.now.nodes }
    ensures { OnOk result (Adds text.old.items text.new.items
        (drawn_each (drawn_from plan.now.nodes sigs.now steps) row.entry.start row.entry.numbers.now
        row.entry.folds.now)) }
{
    for fold in row.folds {
        draw_fold(alloc, plan, sigs, steps, row, *fold, text)?;
    }
    Ok(())
}
