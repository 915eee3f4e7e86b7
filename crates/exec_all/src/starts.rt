//! The arguments with which the children of a `when_all` begin.
ghost use Rattle.std.specs.Prelude.{◌≡◌, IfOk, IsOk, true};
ghost use Rattle.home_items.specs.Entries.{carried_of};
ghost use Rattle.table_steps.specs.Slots.{held_at};
ghost use Rattle.step_parts.specs.Takes.{IsTaken, Keeps};
ghost use Rattle.exec_all.specs.Starts.{is_light, AreCopies, HasLast, HasOne, TakesLast};

use exec_value::{Data, Datum, copy_data};
use op_slot::Hand;
use std::alloc::{AllocError, Global};
use std::sync::Wait;
use step_parts::{Item, Site, Taken, copy_waiting};

/// As many copies of a node's arguments as it has children.
#[derive(Drop)]
pub(crate) enum Copies {
    /// Copies want no memory: each is made as it is wanted, from this.
    Light(Data),
    /// They were made.
    Made(Vec<Data>),
}

// Copies of these data want no memory: there are none, or it is one and no row.
#[inline(always)]
fn is_light(values: &Data) -> bool
    ensures { result ≡ is_light values.now }
{
    match values.as_slice() {
        [] => true,
        [Datum::Row(_)] => false,
        [_] => true,
        _ => false,
    }
}

// So many copies.
#[inline(never)]
fn make_each(alloc: Global, values: &Data, count: usize) -> Result<Vec<Data>, AllocError>
    ensures { IfOk result (λ made. AreCopies values.now count made.items) }
{
    let mut made = Vec::with_capacity(alloc, count)?;
    for _ in 0..count {
        made.push_reserved(copy_data(alloc, values)?);
    }
    Ok(made)
}

// So many copies.
#[inline(always)]
fn copies_of<R: Wait>(
    rt: &R,
    alloc: Global,
    values: &Data,
    count: usize,
) -> Result<Copies, AllocError>
    ensures ok { IfOk result (HasLast values.now count) }
    ensures light { is_light values.now ≡ true → IsOk result }
{
    if is_light(values) {
        return Ok(Copies::Light(copy_waiting(rt, alloc, values)));
    }
    Ok(Copies::Made(make_each(alloc, values, count)?))
}

impl Copies {
    /// So many copies of the node's arguments. Where they want memory, all are made now: where
    /// there is none, no child needs to be begun.
    #[inline(always)]
    pub(crate) fn of<R: Wait, G>(
        site: &Site<R, G>,
        hand: &mut Hand<Item>,
        taken: &Taken,
        count: usize,
    ) -> Result<Copies, AllocError>
        requires taken { IsTaken site.now taken.now hand.old }
        ensures keeps { Keeps site.now taken.now hand.old hand.new }
        ensures same_held { held_at hand.new.me.0 taken.now.name
            ≡ held_at hand.old.me.0 taken.now.name }
        ensures ok { IfOk result (HasLast (carried_of taken.now.start) count) }
        ensures light { is_light (carried_of taken.now.start) ≡ true → IsOk result }
    {
        match hand.item_mut(site.table, taken.name()) {
            Some(item) => copies_of(site.rt, site.alloc, item.args(), count),
            None => unreachable!(),
        }
    }

    /// One of them.
    #[inline(always)]
    pub(crate) fn take<R: Wait>(&mut self, rt: &R, alloc: Global) -> Data
        requires { HasOne self.old }
        ensures { TakesLast result self.old self.new }
    {
        match self {
            Copies::Light(values) => copy_waiting(rt, alloc, values),
            Copies::Made(made) => match made.pop() {
                Some(values) => values,
                None => unreachable!(),
            },
        }
    }
}
