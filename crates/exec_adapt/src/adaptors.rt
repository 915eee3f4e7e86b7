//! The steps of nodes that make an image of what their one child completes with ([exec.adapt]).
ghost use Rattle.std.specs.Prelude.{◌≡◌};
ghost use Rattle.exec_adapt.specs.Ends.{MayGoOn, MayGoOnAgain, MayPass};
ghost use Rattle.exec_adapt.specs.Adapts.{Ends, GoesOn, GoesOnAgain};
ghost use Rattle.exec_adapt.specs.Kinds.{adapted};
ghost use Rattle.home_items.specs.Parcels.{delivery_of};

use crate::images::{make_image, names_error, own_name, runs_job};
use crate::naming::complete_named;
use exec_value::Completion;
use home_items::State;
use life_rules::Name;
use op_slot::Hand;
use plan_rules::{Node, NodeId};
use std::alloc::AllocError;
use std::sync::Wait;
use step_parts::{
    Gate, Item, Kind, Label, Next, Point, Site, Taken, complete, start_again, start_child,
    take_back_into, take_kept, take_up, want_memory,
};

/// Each node with one child, which runs with the node's arguments, and of whose completion it makes
/// an image.
pub struct Adaptors;

impl Kind for Adaptors {
    ghost use Rattle.exec_adapt.specs.Kinds.{IsAdaptorNode};
    ghost use Rattle.exec_adapt.specs.Adapts.{Adapts};

    ghost is = { IsAdaptorNode };

    ghost does = { Adapts };

    /// Step: those of `take_up`, and then those of `start_child`, or of `complete`.
    #[inline(never)]
    fn step<R: Wait, G: Gate>(site: &Site<R, G>, hand: &mut Hand<Item>, name: Name) -> Next {
        let node = site.node(name);
        let Some(child) = adapted(node) else {
            unreachable!()
        };
        let (taken, state) = take_up(site, hand, name);
        match state {
            State::Start => {
                let asked = taken.asked();
                start_child(site, hand, taken, child, asked)
            }
            _ => go_on(site, hand, taken, node, child),
        }
    }
}

// Goes on where the node had begun: with what the child completed with.
#[inline(always)]
fn go_on<R: Wait, G: Gate>(
    site: &Site<R, G>,
    hand: &mut Hand<Item>,
    taken: Taken,
    node: &Node,
    child: NodeId,
) -> Next
    requires may { MayGoOn site.now taken node.now child hand.old }
    ensures { GoesOn site.now taken node.now child result hand.old hand.new }
{
    let mut done = Completion::Stopped;
    match take_back_into(site, hand, &taken, child, &mut done) {
        Some(label) => pass_on(site, hand, taken, node, label, &mut done),
        None => go_on_again(site, hand, taken, node, child),
    }
}

// Goes on where the child hasn't completed since the node rested: with what the node kept of it;
// else the child is started, where it hasn't begun.
#[cold]
#[inline(never)]
fn go_on_again<R: Wait, G: Gate>(
    site: &Site<R, G>,
    hand: &mut Hand<Item>,
    taken: Taken,
    node: &Node,
    child: NodeId,
) -> Next
    requires may { MayGoOnAgain site.now taken node.now child hand.old }
    ensures { GoesOnAgain site.now taken node.now child result hand.old hand.new }
{
    match take_kept(site, hand, &taken) {
        Some(parcel) => {
            let (label, mut done) = parcel.open();
            pass_on(site, hand, taken, node, label, &mut done)
        }
        None => {
            let asked = taken.asked();
            start_again(site, hand, taken, child, asked)
        }
    }
}

// The one child of a node that makes an image of what its child completes with.
#[inline(always)]
fn adapted(node: &Node) -> Option<NodeId>
    ensures { result ≡ adapted node.now }
{
    match node {
        Node::Then { child, .. } => Some(*child),
        Node::UponError { child, .. } => Some(*child),
        Node::UponStopped { child, .. } => Some(*child),
        Node::StoppedAsOptional { child, .. } => Some(*child),
        Node::StoppedAsError { child, .. } => Some(*child),
        _ => None,
    }
}

// Completes the node, whose child has completed. Its job is applied past the gate.
#[inline(always)]
fn pass_on<R: Wait, G: Gate>(
    site: &Site<R, G>,
    hand: &mut Hand<Item>,
    taken: Taken,
    node: &Node,
    label: Label,
    done: &mut Completion,
) -> Next
    requires may { MayPass site.now taken node.now (delivery_of label done.old) hand.old }
    ensures { Ends site.now taken node.now (delivery_of label done.old) result hand.old hand.new }
{
    if runs_job(node, done) {
        site.pass(Point::Job {
            number: taken.number(),
            node: taken.name().node,
        });
    }
    let saw = label.saw();
    drop(label);
    if names_error(node, done) {
        return complete_named(site, hand, taken, own_name(node), saw);
    }
    match make_image(site.alloc, node, done) {
        Ok(()) => complete(site, hand, taken, done, saw),
        Err(AllocError) => want_memory(site, hand, taken),
    }
}
