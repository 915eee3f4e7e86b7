//! How a `when_all` begins its children ([exec.when.all]).
ghost use Rattle.exec_recv.specs.Sites.{Steps};
ghost use Rattle.exec_all.specs.Begins.{MayBegin, MayStartAll, BeginsAll, StartsAll};

use crate::starts::Copies;
use home_items::Shown;
use life_rules::Name;
use op_slot::Hand;
use plan_rules::NodeId;
use std::alloc::AllocError;
use std::sync::Wait;
use step_parts::{
    Env, Gate, Item, Next, Site, Taken, await_many, complete_stopped, listen, put_start,
    want_memory,
};

// Leaves the node awaiting all its children, and puts their starts into their homes, from the last
// child to the first.
#[inline(always)]
fn start_all<R: Wait, G>(
    site: &Site<R, G>,
    hand: &mut Hand<Item>,
    taken: Taken,
    children: &[NodeId],
    copies: Copies,
) -> Next
    requires may { MayStartAll site.now taken children.now copies hand.old }
    ensures { StartsAll site.now taken children.now result hand.old hand.new }
{
    let above = Shown::of(&taken);
    let number = taken.number();
    let name = taken.name();
    await_many(site, hand, taken, None, children);
    let mut copies = copies;
    let mut left = children.len();
    while left > 0 {
        left -= 1;
        let child = Name {
            node: children[left],
            ..name
        };
        let args = copies.take(site.rt, site.alloc);
        let below = Env::below(&above, child.node, args, number, false);
        put_start(site, hand, child, below);
    }
    Next::Rest
}

/// Begins the children, with the node's arguments. The node listens to the source above it before,
/// and looks: where a stop is requested there, or was before the operation was started, it
/// completes stopped, and begins none. Where there is no memory for the children's arguments, it
/// begins none either, and completes with want of memory.
#[inline(always)]
pub(crate) fn begin_all<R: Wait, G: Gate>(
    site: &Site<R, G>,
    hand: &mut Hand<Item>,
    taken: Taken,
    children: &[NodeId],
) -> Next
    requires may { MayBegin site.now taken children.now hand.old }
    ensures steps { Steps site.now taken.name result taken.from hand.new }
    ensures begins { BeginsAll site.now taken children.now result hand.old hand.new }
{
    if taken.asked() {
        return complete_stopped(site, hand, taken, false);
    }
    match Copies::of(site, hand, &taken, children.len()) {
        Ok(copies) => {
            if listen(site, hand, &taken) {
                drop(copies);
                return complete_stopped(site, hand, taken, true);
            }
            start_all(site, hand, taken, children, copies)
        }
        Err(AllocError) => want_memory(site, hand, taken),
    }
}
