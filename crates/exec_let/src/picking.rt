//! How a let picks the body for what its child completed with ([exec.let]).
ghost use Rattle.std.specs.Prelude.{◌≡◌, IfOk, IsOk, Some, true};
ghost use Rattle.start_laws.specs.Lets.{channel_of};
ghost use Rattle.exec_let.specs.Kinds.{is_small};
ghost use Rattle.exec_let.specs.Picks.{CanPick, Picks, PicksInPlace};

use crate::channel::is_small;
use crate::parts::{let_bodies, let_pick};
use exec_value::{Completion, Data, Datum};
use node_images::pick_body;
use plan_rules::{Node, NodeId};
use std::alloc::{AllocError, Global};
use std::sync::Wait;
use std::thread::yield_now;
use step_parts::{Gate, Point, Site, Taken};

/// How a let goes on with what its child completed with.
#[derive(Drop)]
pub(crate) enum Picked {
    /// This body begins with it.
    Body(NodeId),
    /// The pick names no body: the let completes so.
    Answer(Completion),
    /// It is on another channel: the let completes with the same.
    Passes,
}

// What the pick names for these data.
#[inline(never)]
fn pick_for(alloc: Global, node: &Node, values: &Data) -> Result<Picked, AllocError>
    requires may { CanPick node.now (Some values.now) }
    ensures picks { IfOk result (Picks node.now (Some values.now)) }
    ensures in_place { PicksInPlace node.now (Some values.now) → IsOk result }
{
    let mut answer = Completion::Stopped;
    match pick_body(alloc, let_pick(node), values, let_bodies(node), &mut answer)? {
        Some(body) => {
            drop(answer);
            Ok(Picked::Body(body))
        }
        None => Ok(Picked::Answer(answer)),
    }
}

// What the let's pick, which is applied past the gate, names for the data that the completion has
// on the let's channel. Where these data and the answer stand in place, it wants no memory.
#[inline(always)]
fn pick<R, G: Gate>(
    site: &Site<R, G>,
    taken: &Taken,
    node: &Node,
    done: &Completion,
) -> Result<Picked, AllocError>
    requires may { CanPick node.now (channel_of node.now done.now) }
    ensures picks { IfOk result (Picks node.now (channel_of node.now done.now)) }
    ensures in_place { PicksInPlace node.now (channel_of node.now done.now) → IsOk result }
{
    match node {
        Node::LetValue { .. } => match done {
            Completion::Value(values) => {
                pass(site, taken);
                pick_for(site.alloc, node, values)
            }
            _ => Ok(Picked::Passes),
        },
        Node::LetError { .. } => match done {
            Completion::Error(name) => {
                let values = Data::one(site.alloc, Datum::Text(name.as_text().clone()?));
                pass(site, taken);
                pick_for(site.alloc, node, &values)
            }
            _ => Ok(Picked::Passes),
        },
        Node::LetStopped { .. } => match done {
            Completion::Stopped => {
                pass(site, taken);
                pick_for(site.alloc, node, &Data::empty(site.alloc))
            }
            _ => Ok(Picked::Passes),
        },
        _ => unreachable!(),
    }
}

/// What the let's pick names for the data that the completion has on the let's channel. Where there
/// is no memory for it, and a node of a small plan may complete so, this tries again: such data
/// want no memory but for a long name of an error, which is shared, so that it doesn't come.
#[inline(always)]
pub(crate) fn pick_or_wait<R: Wait, G: Gate>(
    site: &Site<R, G>,
    taken: &Taken,
    node: &Node,
    done: &Completion,
) -> Result<Picked, AllocError>
    requires may { CanPick node.now (channel_of node.now done.now) }
    ensures picks { IfOk result (Picks node.now (channel_of node.now done.now)) }
    ensures in_place { PicksInPlace node.now (channel_of node.now done.now) → IsOk result }
    ensures small { is_small done.now ≡ true → IsOk result }
{
    for _ in site.rt.forever() {
        match pick(site, taken, node, done) {
            Ok(picked) => return Ok(picked),
            Err(AllocError) => {
                if !is_small(done) {
                    return Err(AllocError);
                }
                yield_now()
            }
        }
    }
    unreachable!()
}

// Passes the gate before the job.
#[inline(always)]
fn pass<R, G: Gate>(site: &Site<R, G>, taken: &Taken) {
    site.pass(Point::Job {
        number: taken.number(),
        node: taken.name().node,
    });
}
