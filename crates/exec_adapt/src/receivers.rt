//! The step of the receiver node, under which the operation of a record runs ([exec.recv]). Below
//! it stand the plan's root and the first child of each `ahead`; its start names the one of them
//! that its operation runs.
ghost use Rattle.exec_adapt.specs.Ends.{MayReceive, MayRestAgain, MayReadTop};
ghost use Rattle.exec_adapt.specs.Receives.{ReadsTop, RestsAgain, Receives};

use crate::opening::take_top;
use home_items::State;
use life_rules::Name;
use node_tree::Context;
use op_slot::Hand;
use plan_rules::NodeId;
use std::sync::Wait;
use step_parts::{
    Gate, Item, Kind, Next, Site, Taken, leave_at_rest, start_top, take_kept, take_up_top,
};

/// The receiver node: it starts the child that its start names, and where that has completed is
/// left ready in the loop with the child's parcel, which is collected there.
pub struct Receivers;

impl Kind for Receivers {
    ghost use Rattle.exec_adapt.specs.Kinds.{IsReceiverNode};
    ghost use Rattle.exec_adapt.specs.Receives.{ReceivesTop};

    ghost is = { IsReceiverNode };

    ghost does = { ReceivesTop };

    /// Step: those of `take_up_top`, and then those of `start_top`; or of `take_child` for each
    /// child, and of `leave_at_rest`.
    #[inline(never)]
    fn step<R: Wait, G: Gate>(site: &Site<R, G>, hand: &mut Hand<Item>, name: Name) -> Next {
        let (taken, state, child) = take_up_top(site, hand, name);
        let Some(child) = child else { unreachable!() };
        match state {
            State::Start => start_top(site, hand, taken, child),
            _ => receive(site, hand, taken, child),
        }
    }
}

// Keeps what the child has completed with.
#[inline(always)]
fn receive<R, G>(site: &Site<R, G>, hand: &mut Hand<Item>, taken: Taken, child: NodeId) -> Next
    requires may { MayReceive site.now taken child hand.old }
    ensures { Receives site.now taken child result hand.old hand.new }
{
    match take_top(site, hand, &taken, child) {
        Some(parcel) => leave_at_rest(site, hand, taken, Some(parcel), Context::Loop),
        None => rest_again(site, hand, taken, child),
    }
}

// Goes on where the child hasn't completed since the node rested: with what the node kept of it;
// else the child is started, where it hasn't begun.
#[cold]
#[inline(never)]
fn rest_again<R, G>(site: &Site<R, G>, hand: &mut Hand<Item>, taken: Taken, child: NodeId) -> Next
    requires may { MayRestAgain site.now taken child hand.old }
    ensures { RestsAgain site.now taken child result hand.old hand.new }
{
    match take_kept(site, hand, &taken) {
        Some(kept) => leave_at_rest(site, hand, taken, Some(kept), Context::Loop),
        None => start_again_top(site, hand, taken, child),
    }
}

// Reads whether the child has begun, and starts it where it hasn't. That it has doesn't come: then
// the node is left ready in the loop, with no parcel.
#[inline(always)]
fn start_again_top<R, G>(
    site: &Site<R, G>,
    hand: &mut Hand<Item>,
    taken: Taken,
    child: NodeId,
) -> Next
    requires may { MayReadTop site.now taken child hand.old }
    ensures { ReadsTop site.now taken child result hand.old hand.new }
{
    let node = Name {
        node: child,
        ..taken.name()
    };
    if site.table.has_begun(hand, node) {
        return leave_at_rest(site, hand, taken, None, Context::Loop);
    }
    start_top(site, hand, taken, child)
}
