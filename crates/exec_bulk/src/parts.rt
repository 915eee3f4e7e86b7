//! The step of a part of a bulk ([exec.bulk]).
ghost use Rattle.std.specs.Prelude.{◌<◌};
ghost use Rattle.exec_bulk.specs.Parts.{MayRunPart, RunsPart, MakesShare};

use crate::elements::end_share;
use exec_value::Completion;
use home_items::State;
use life_rules::Name;
use node_tree::Context;
use op_slot::Hand;
use plan_rules::{Node, NodeId};
use std::alloc::AllocError;
use std::sync::Wait;
use step_parts::{
    Gate, Item, Kind, Next, Point, Site, Taken, complete, leave_at_rest, take_up, want_memory,
};

/// Each part of a bulk: from its start it is left ready in the pool; when it is taken there it
/// completes with what the bulk's job makes of its share.
pub struct Parts;

impl Kind for Parts {
    ghost use Rattle.exec_bulk.specs.Kinds.{IsPartNode};
    ghost use Rattle.exec_bulk.specs.Parts.{StepsPart};

    ghost is = { IsPartNode };

    ghost does = { StepsPart };

    /// Step: those of `take_up`, and then those of `leave_at_rest`, or of `complete`.
    #[inline(never)]
    fn step<R: Wait, G: Gate>(site: &Site<R, G>, hand: &mut Hand<Item>, name: Name) -> Next {
        match site.node(name) {
            Node::Part { bulk, part } => {
                let (taken, state) = take_up(site, hand, name);
                match state {
                    State::Start => leave_at_rest(site, hand, taken, None, Context::Pool),
                    _ => run_part(site, hand, taken, *bulk, *part),
                }
            }
            _ => unreachable!(),
        }
    }
}

// What the bulk's job makes of the part's share of the row in its home. An error where there is no
// memory for it, and it doesn't stand in place.
#[inline(always)]
fn make_share<R, G>(
    site: &Site<R, G>,
    hand: &mut Hand<Item>,
    taken: &Taken,
    bulk: NodeId,
    part: u32,
) -> Result<Completion, AllocError>
    requires may { MayRunPart site.now taken.now bulk part hand.old }
    ensures { MakesShare site.now taken.now bulk part result hand.old hand.new }
{
    match site.plan.node(bulk) {
        Node::Bulk { job, .. } => match hand.item_mut(site.table, taken.name()) {
            Some(item) => {
                let row = item.args();
                end_share(site.alloc, job, row, part)
            }
            None => unreachable!(),
        },
        _ => unreachable!(),
    }
}

// Completes with what the job makes of the part's share. The job is applied past the gate.
#[inline(always)]
fn run_part<R: Wait, G: Gate>(
    site: &Site<R, G>,
    hand: &mut Hand<Item>,
    taken: Taken,
    bulk: NodeId,
    part: u32,
) -> Next
    requires may { MayRunPart site.now taken bulk part hand.old }
    ensures { RunsPart site.now taken bulk part result hand.old hand.new }
{
    site.pass(Point::Job {
        number: taken.number(),
        node: taken.name().node,
    });
    match make_share(site, hand, &taken, bulk, part) {
        Ok(done) => {
            let mut done = done;
            complete(site, hand, taken, &mut done, false)
        }
        Err(AllocError) => want_memory(site, hand, taken),
    }
}
