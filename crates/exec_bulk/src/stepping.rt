//! The step of a bulk ([exec.bulk]).
ghost use Rattle.home_items.specs.Parcels.{delivery_of};
ghost use Rattle.home_items.specs.declared.item.State.TheVariants.{Kept};
ghost use Rattle.exec_bulk.specs.Begins.{MayGoOn};
ghost use Rattle.exec_bulk.specs.Opens.{HasTakenUp, MayTakeBack};
ghost use Rattle.exec_bulk.specs.Steps.{CutsRow, GoesOnBack, JoinsParts};

use crate::beginning::begin_parts;
use crate::ending::{end_parts, pass_on};
use crate::joining::Made;
use crate::opening::{KeptRow, gather_parts, look_row};
use crate::rows::{numbers_of, parts_of};
use exec_value::Completion;
use home_items::State;
use life_rules::Name;
use op_slot::Hand;
use plan_rules::{Node, NodeId};
use std::sync::Wait;
use step_parts::{
    Gate, Item, Kind, Label, Next, Site, Taken, start_again, start_child, take_child_into, take_up,
};

/// Each bulk.
///
/// It starts its child. Of a row with numbers that the child completes with it begins as many parts
/// as there are numbers, eight at most, each with its share; of anything else it completes with the
/// same. Once the last part has reported, it completes with the row that the parts make, or with
/// the error of the least failing index.
pub struct Bulks;

impl Kind for Bulks {
    ghost use Rattle.exec_bulk.specs.Kinds.{IsBulkNode};
    ghost use Rattle.exec_bulk.specs.Steps.{StepsBulk};

    ghost is = { IsBulkNode };

    ghost does = { StepsBulk };

    /// Step: those of its start, of its child's end, or of its parts' end.
    #[inline(never)]
    fn step<R: Wait, G: Gate>(site: &Site<R, G>, hand: &mut Hand<Item>, name: Name) -> Next {
        match site.node(name) {
            Node::Bulk { child, .. } => {
                let (taken, state) = take_up(site, hand, name);
                match state {
                    State::Start => {
                        let asked = taken.asked();
                        start_child(site, hand, taken, *child, asked)
                    }
                    State::Kept => join_parts(site, hand, taken, *child),
                    _ => step_begun(site, hand, taken, *child),
                }
            }
            _ => unreachable!(),
        }
    }
}

// Steps a bulk that keeps what its child completed with: its parts have run. Where that is no row
// with numbers, which doesn't come, there are none, and it goes on by its child.
#[inline(always)]
fn join_parts<R: Wait, G: Gate>(
    site: &Site<R, G>,
    hand: &mut Hand<Item>,
    taken: Taken,
    child: NodeId,
) -> Next
    requires up { HasTakenUp site.now taken child Kept hand.old }
    ensures { JoinsParts site.now taken child result hand.old hand.new }
{
    let KeptRow { room, saw } = look_row(site, hand, &taken);
    if room == 0 {
        return step_begun(site, hand, taken, child);
    }
    let mut made = Made::none(site.alloc, room);
    gather_parts(site, hand, &taken, parts_of(room), &mut made);
    end_parts(site, hand, taken, saw, made)
}

// Steps a bulk whose child has begun, and none of its parts.
#[inline(never)]
fn step_begun<R: Wait, G: Gate>(
    site: &Site<R, G>,
    hand: &mut Hand<Item>,
    taken: Taken,
    child: NodeId,
) -> Next
    requires may { MayTakeBack site.now taken child hand.old }
    ensures { GoesOnBack site.now taken child result hand.old hand.new }
{
    let mut done = Completion::Stopped;
    match take_child_into(site, hand, &taken, child, &mut done) {
        Some(label) => go_on(site, hand, taken, label, &mut done),
        None => {
            let asked = taken.asked();
            start_again(site, hand, taken, child, asked)
        }
    }
}

// Goes on once the child has completed: begins the parts of its row, or completes with the same,
// where that is no row or an empty one.
#[inline(always)]
fn go_on<R: Wait, G: Gate>(
    site: &Site<R, G>,
    hand: &mut Hand<Item>,
    taken: Taken,
    label: Label,
    done: &mut Completion,
) -> Next
    requires may { MayGoOn site.now taken (delivery_of label done.old) hand.old }
    ensures { CutsRow site.now taken (delivery_of label done.old) result hand.old hand.new }
{
    if numbers_of(done).is_empty() {
        return pass_on(site, hand, taken, label, done);
    }
    begin_parts(site, hand, taken, label, done)
}
