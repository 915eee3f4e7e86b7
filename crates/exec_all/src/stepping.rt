//! The step of a `when_all` ([exec.when.all]).
ghost use Rattle.exec_recv.specs.Sites.{Steps};
ghost use Rattle.exec_all.specs.Opens.{MayOpen};
ghost use Rattle.exec_all.specs.Steps.{StepsBegun};

use crate::beginning::begin_all;
use crate::ending::end_all;
use crate::opening::take_all;
use home_items::State;
use life_rules::Name;
use node_tree::Context;
use op_slot::Hand;
use plan_rules::{Node, NodeId};
use std::sync::Wait;
use step_parts::{Gate, Item, Kind, Next, Site, Taken, complete_stopped, leave_at_rest, take_up};

/// Each `when_all`.
///
/// From its start it registers its callback on the source that it hears, and then looks there:
/// where a stop is requested, it completes stopped and starts no child; else it starts all. Once
/// the last child has reported, it completes with what all complete with together. Its callback is
/// removed before it is done.
pub struct Alls;

impl Kind for Alls {
    ghost use Rattle.exec_all.specs.Kinds.{IsAll};
    ghost use Rattle.exec_all.specs.Steps.{StepsAll};

    ghost is = { IsAll };

    ghost does = { StepsAll };

    /// Step: those of `take_up`, and then those of its start, or of its end.
    #[inline(never)]
    fn step<R: Wait, G: Gate>(site: &Site<R, G>, hand: &mut Hand<Item>, name: Name) -> Next {
        match site.node(name) {
            Node::WhenAll { children } => {
                let children = children.as_slice();
                let (taken, state) = take_up(site, hand, name);
                match state {
                    State::Start => begin_all(site, hand, taken, children),
                    _ => step_begun(site, hand, taken, children),
                }
            }
            _ => unreachable!(),
        }
    }
}

// Completes a `when_all` that has begun. One that is stepped before each child has completed goes
// on later, in the loop; that doesn't come.
#[inline(always)]
fn step_begun<R: Wait, G: Gate>(
    site: &Site<R, G>,
    hand: &mut Hand<Item>,
    taken: Taken,
    children: &[NodeId],
) -> Next
    requires may { MayOpen site.now taken children.now hand.old }
    ensures steps { Steps site.now taken.name result taken.from hand.new }
    ensures does { StepsBegun site.now taken children.now result hand.old hand.new }
{
    let all = take_all(site, hand, &taken, children);
    if taken.asked() {
        drop(all);
        return complete_stopped(site, hand, taken, false);
    }
    match all {
        Some(joining) => end_all(site, hand, taken, joining),
        None => leave_at_rest(site, hand, taken, None, Context::Loop),
    }
}
