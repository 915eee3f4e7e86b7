//! The step of a let.
ghost use Rattle.home_items.specs.Parcels.{delivery_of};
ghost use Rattle.exec_recv.specs.Sites.{Steps};
ghost use Rattle.exec_let.specs.Ends.{MayGoOn};
ghost use Rattle.exec_let.specs.Lets.{GoesOn, StepsBegun};
ghost use Rattle.exec_let.specs.Opens.{MayOpen};

use crate::beginning::begin_body;
use crate::ending::end_as_body;
use crate::opening::{Opened, open};
use crate::parts::let_child;
use crate::picking::{Picked, pick_or_wait};
use exec_value::Completion;
use home_items::State;
use life_rules::Name;
use op_slot::Hand;
use plan_rules::Node;
use std::alloc::AllocError;
use std::sync::Wait;
use step_parts::{
    Gate, Item, Kind, Label, Next, Site, Taken, complete, start_again, start_child, take_up,
    want_memory,
};

/// Each let.
///
/// From its start it starts its child. Where the child has completed on the let's channel, the body
/// that the pick names for these data is awaited, with them as its arguments; where the pick names
/// none the let has completed with what it answers; or there was no memory for that answer. On
/// another channel it has completed as the child, and where a body had completed, as the body.
pub struct Lets;

impl Kind for Lets {
    ghost use Rattle.exec_let.specs.Kinds.{IsLetNode};
    ghost use Rattle.exec_let.specs.Lets.{StepsLet};

    ghost is = { IsLetNode };

    ghost does = { StepsLet };

    /// Step: where a body has completed, one look, and those of `complete`. Where the child has
    /// completed, those by which the let completes, or a look, one load of the picked body's
    /// control word, and those of `begin`. Else those of `start_child`.
    #[inline(never)]
    fn step<R: Wait, G: Gate>(site: &Site<R, G>, hand: &mut Hand<Item>, name: Name) -> Next {
        let node = site.node(name);
        let (taken, state) = take_up(site, hand, name);
        match state {
            State::Start => {
                let asked = taken.asked();
                start_child(site, hand, taken, let_child(node), asked)
            }
            _ => step_begun(site, hand, taken, node),
        }
    }
}

// Steps a let that has begun: by the body that has completed, else by its child, which else is
// started.
#[inline(always)]
fn step_begun<R: Wait, G: Gate>(
    site: &Site<R, G>,
    hand: &mut Hand<Item>,
    taken: Taken,
    node: &Node,
) -> Next
    requires may { MayOpen site.now taken node.now hand.old }
    ensures steps { Steps site.now taken.name result taken.from hand.new }
    ensures begun { StepsBegun site.now taken node.now result hand.old hand.new }
{
    let mut below = Completion::Stopped;
    let mut over = Completion::Stopped;
    let Opened { child, body } = open(site, hand, &taken, node, &mut below, &mut over);
    match body {
        Some(label) => {
            drop(child);
            end_as_body(site, hand, taken, label, &mut over)
        }
        None => match child {
            Some(label) => go_on(site, hand, taken, node, label, &mut below),
            None => {
                let asked = taken.asked();
                start_again(site, hand, taken, let_child(node), asked)
            }
        },
    }
}

// Goes on with what the child completed with: where it is on the let's channel a body is picked,
// else it passes.
#[inline(always)]
fn go_on<R: Wait, G: Gate>(
    site: &Site<R, G>,
    hand: &mut Hand<Item>,
    taken: Taken,
    node: &Node,
    label: Label,
    done: &mut Completion,
) -> Next
    requires may { MayGoOn site.now taken node.now (delivery_of label done.old) hand.old }
    ensures steps { Steps site.now taken.name result taken.from hand.new }
    ensures goes { GoesOn site.now taken node.now (delivery_of label done.old) result
        hand.old hand.new }
{
    match pick_or_wait(site, &taken, node, done) {
        Ok(Picked::Body(body)) => begin_body(site, hand, taken, node, label, done, body),
        Ok(Picked::Answer(answer)) => {
            let saw = label.saw();
            drop(label);
            let mut answer = answer;
            complete(site, hand, taken, &mut answer, saw)
        }
        Ok(Picked::Passes) => {
            let saw = label.saw();
            drop(label);
            complete(site, hand, taken, done, saw)
        }
        Err(AllocError) => {
            drop(label);
            want_memory(site, hand, taken)
        }
    }
}
