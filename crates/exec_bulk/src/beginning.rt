//! How a bulk begins its parts ([exec.bulk]).
ghost use Rattle.home_items.specs.Parcels.{delivery_of};
ghost use Rattle.step_parts.specs.Takes.{IsTaken};
ghost use Rattle.exec_bulk.specs.Begins.{MayBegin, MayStart, BeginsParts, StartsParts, Looks};

use crate::reading::read_all_idle;
use crate::rows::{first_part, numbers_of, part_nodes, parts_for, row_of};
use exec_value::{Completion, Data};
use home_items::Shown;
use life_rules::Name;
use op_slot::Hand;
use std::sync::Wait;
use step_parts::{
    Env, Gate, Item, Label, Next, Site, Taken, await_keeping, copy_waiting, hear, put_start,
    want_memory,
};

// Leaves the node awaiting its parts, with the row that they draw, and puts their starts into their
// homes, from the last part to the first. They share the row: the first takes this copy of it.
#[inline(always)]
fn start_parts<R: Wait, G>(
    site: &Site<R, G>,
    hand: &mut Hand<Item>,
    taken: Taken,
    label: Label,
    done: &mut Completion,
    row: Data,
) -> Next
    requires may { MayStart site.now taken (delivery_of label done.old) row hand.old }
    ensures { StartsParts site.now taken (delivery_of label done.old) result hand.old hand.new }
{
    let above = Shown::of(&taken);
    let number = taken.number();
    let asked = taken.asked();
    let name = taken.name();
    let count = parts_for(numbers_of(done));
    let first = first_part(name.node);
    let nodes = part_nodes(first);
    let children = &nodes[..count as usize];
    read_all_idle(site, hand, &taken, children);
    await_keeping(site, hand, taken, label, done, children);
    let mut left = count;
    while left > 1 {
        left -= 1;
        let part = Name {
            node: first + left,
            ..name
        };
        let args = copy_waiting(site.rt, site.alloc, &row);
        let below = Env::below(&above, part.node, args, number, asked);
        put_start(site, hand, part, below);
    }
    let part = Name {
        node: first,
        ..name
    };
    let below = Env::below(&above, part.node, row, number, asked);
    put_start(site, hand, part, below);
    Next::Rest
}

// Whether the parts' starts may rest on what the child completed with. Where the child saw a
// request, the node looks at the source that it hears. That the look finds none doesn't come.
#[inline(always)]
fn may_rest_on<R, G>(site: &Site<R, G>, hand: &mut Hand<Item>, taken: &Taken, saw: bool) -> bool
    requires taken { IsTaken site.now taken.now hand.old }
    ensures { Looks site.now taken.now saw result hand.old hand.new }
{
    if saw {
        return hear(site, hand, taken);
    }
    true
}

/// Goes on once the child has completed with a row: begins its parts, which wants no memory.
#[inline(always)]
pub(crate) fn begin_parts<R: Wait, G: Gate>(
    site: &Site<R, G>,
    hand: &mut Hand<Item>,
    taken: Taken,
    label: Label,
    done: &mut Completion,
) -> Next
    requires may { MayBegin site.now taken (delivery_of label done.old) hand.old }
    ensures { BeginsParts site.now taken (delivery_of label done.old) result hand.old hand.new }
{
    let saw = label.saw();
    if !may_rest_on(site, hand, &taken, saw) {
        drop(label);
        return want_memory(site, hand, taken);
    }
    let row = row_of(site.rt, site.alloc, done);
    start_parts(site, hand, taken, label, done, row)
}
