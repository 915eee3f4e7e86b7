//! How a step copies its node's arguments, which lie in its home.
ghost use Rattle.std.specs.Prelude.{◌≡◌, IfOk, IsOk};
ghost use Rattle.exec_value.specs.Place.{AreInPlace};
ghost use Rattle.home_items.specs.Entries.{carried_of};
ghost use Rattle.step_parts.specs.Starts.{data_in};
ghost use Rattle.step_parts.specs.Takes.{IsTaken, Keeps};

use crate::taken::Taken;
use exec_recv::{Item, Site};
use exec_value::{Data, Datum, copy_data};
use op_slot::Hand;
use std::alloc::{AllocError, Global};
use std::sync::Wait;
use std::thread::yield_now;

/// A copy of a node's arguments. One int is apart: it needs no room in memory until it is put.
#[derive(Drop)]
pub(crate) enum Carried {
    Int(i64),
    Other(Data),
}

impl Carried {
    /// A copy of these data. Where they stand in place, it wants no memory.
    #[inline(always)]
    pub(crate) fn of(alloc: Global, values: &Data) -> Result<Carried, AllocError>
        ensures copies { IfOk result (λ copy. data_in copy ≡ values.now) }
        ensures in_place { AreInPlace values.now → IsOk result }
    {
        match values.one_int() {
            Some(number) => Ok(Carried::Int(number)),
            None => match copy_data(alloc, values) {
                Ok(copy) => Ok(Carried::Other(copy)),
                Err(AllocError) => Err(AllocError),
            },
        }
    }

    /// The data.
    #[inline(always)]
    pub(crate) fn into_data(self, alloc: Global) -> Data
        ensures { result ≡ data_in self }
    {
        match self {
            Carried::Int(number) => Data::one(alloc, Datum::Int(number)),
            Carried::Other(values) => values,
        }
    }
}

/// A copy of the node's arguments. Where they stand in place, it wants no memory.
#[inline(always)]
pub fn copy_args<R, G>(
    site: &Site<R, G>,
    hand: &mut Hand<Item>,
    taken: &Taken,
) -> Result<Data, AllocError>
    requires taken { IsTaken site.now taken.now hand.old }
    ensures keeps { Keeps site.now taken.now hand.old hand.new }
    ensures copies { IfOk result (λ copy. copy ≡ carried_of taken.now.start) }
    ensures in_place { AreInPlace (carried_of taken.now.start) → IsOk result }
{
    match hand.item_mut(site.table, taken.name) {
        Some(item) => copy_data(site.alloc, item.args()),
        None => unreachable!(),
    }
}

/// An equal list of data. Where there is no memory for it, this waits.
#[inline(always)]
pub fn copy_waiting<R: Wait>(rt: &R, alloc: Global, values: &Data) -> Data
    ensures { result ≡ values.now }
{
    for _ in rt.forever() {
        match copy_data(alloc, values) {
            Ok(copy) => return copy,
            Err(AllocError) => yield_now(),
        }
    }
    unreachable!()
}
