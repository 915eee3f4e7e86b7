//! The step of a `continues_on` ([exec.continues.on]).
ghost use Rattle.exec_hop.specs.Ends.{MayGoOn};
ghost use Rattle.exec_hop.specs.Hops.{Lands};

use crate::ending::{pass_unless_stopped, start_unless_stopped};
use crate::hopping::hop_keeping;
use exec_value::Completion;
use home_items::State;
use life_rules::Name;
use op_slot::Hand;
use plan_rules::{Node, NodeId};
use std::sync::Wait;
use step_parts::{
    Gate, Item, Kind, Next, Site, Taken, complete_stopped, hear, start_child, take_back_into,
    take_kept, take_up,
};

/// Each `continues_on`: it starts its child, hops when the child has completed, whatever with, and
/// when it is taken there completes as the child did.
pub struct ContinuesOns;

impl Kind for ContinuesOns {
    ghost use Rattle.exec_hop.specs.Kinds.{IsContinuesOn};
    ghost use Rattle.exec_hop.specs.Hops.{ContinuesOn};

    ghost is = { IsContinuesOn };

    ghost does = { ContinuesOn };

    /// Step: those of `take_up`, and then those of `start_child`; or those of `leave_at_rest`; or
    /// a look, and those of `complete`.
    #[inline(never)]
    fn step<R: Wait, G: Gate>(site: &Site<R, G>, hand: &mut Hand<Item>, name: Name) -> Next {
        match site.node(name) {
            Node::ContinuesOn { child, on } => {
                let (taken, state) = take_up(site, hand, name);
                match state {
                    State::Start => {
                        if taken.asked() {
                            return complete_stopped(site, hand, taken, false);
                        }
                        start_child(site, hand, taken, *child, false)
                    }
                    _ => {
                        let mut done = Completion::Stopped;
                        match take_back_into(site, hand, &taken, *child, &mut done) {
                            Some(label) => hop_keeping(site, hand, taken, label, &mut done, *on),
                            None => land(site, hand, taken, *child),
                        }
                    }
                }
            }
            _ => unreachable!(),
        }
    }
}

// Goes on where the child hasn't completed since the node rested: completes with what the node kept
// of it, taken in its context; else the child is started, where it hasn't begun.
#[inline(always)]
fn land<R: Wait, G: Gate>(
    site: &Site<R, G>,
    hand: &mut Hand<Item>,
    taken: Taken,
    child: NodeId,
) -> Next
    requires may { MayGoOn site.now taken child hand.old }
    ensures { Lands site.now taken child result hand.old hand.new }
{
    match take_kept(site, hand, &taken) {
        Some(parcel) => {
            let saw = hear(site, hand, &taken);
            pass_unless_stopped(site, hand, taken, parcel, saw)
        }
        None => start_unless_stopped(site, hand, taken, child, false),
    }
}
