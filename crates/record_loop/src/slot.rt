//! A record from the moment when it was counted until it has ended.
//!
//!     text --begin--> Running, the ticket of its operation --settle, by turns--> Done
//!          \---------> Bad: the text is no record ---------settle---------------> BadRecord
//!           \--------> NoMemory: none for its datum -------settle---------------> Done, NoMemory
ghost use Rattle.std.specs.Prelude.{◌≡◌, IsSome};
ghost use Rattle.std.specs.Option.{option_copied};
ghost use Rattle.std.specs.Thread.{IsSync};
ghost use Rattle.exec_value.specs.Kinds.{HasKind};
ghost use Rattle.record_loop.specs.Works.{BeginsTicket, CollectsTicket};
ghost use Rattle.record_loop.specs.Slots.{BeginsSlot, HasOperation, SettlesSlot};

use crate::operations::Operations;
use exec_value::{Completion, Datum, Kind, Outcome, RecordFault, read_record};
use std::alloc::Global;
use std::sync::Wait;

/// A record that was read and isn't written yet.
#[derive(Clone, Copy)]
pub enum Slot {
    /// Its operation has this ticket.
    Running(u32),
    /// Its line is no record of the input's kind.
    Bad,
    /// There was no memory for its datum.
    NoMemory,
}

/// Starts the operation of a record, by turns where there is no room for it at once.
#[inline(always)]
fn start<R: Wait + Sync, O: Operations>(
    rt: &R,
    alloc: Global,
    number: u32,
    datum: Datum,
    operations: &mut O,
) -> u32
    requires sync { IsSync R.row }
    requires kind { HasKind datum (O.state operations.old).plan.settings.input }
    ensures { BeginsTicket (O.state operations.old) (O.state operations.new) number datum result }
{
    let mut waiting = datum;
    for _ in rt.forever() {
        match operations.start(rt, alloc, number, waiting) {
            Ok(ticket) => return ticket,
            Err(back) => waiting = back,
        }
        operations.turn(rt, alloc);
    }
    unreachable!()
}

/// Begins the record of this number, whose line has this text. A line without a text is too long.
#[inline(always)]
pub fn begin<R: Wait + Sync, O: Operations>(
    rt: &R,
    alloc: Global,
    kind: Kind,
    number: u32,
    text: Option<&[u8]>,
    operations: &mut O,
) -> Slot
    requires sync { IsSync R.row }
    requires kind { kind ≡ (O.state operations.old).plan.settings.input }
    ensures { BeginsSlot (O.state operations.old) (O.state operations.new) kind number
        (option_copied text.entry) result }
{
    let Some(text) = text else {
        return Slot::Bad;
    };
    match read_record(alloc, kind, text) {
        Ok(datum) => Slot::Running(start(rt, alloc, number, datum, operations)),
        Err(RecordFault::Bad) => Slot::Bad,
        Err(RecordFault::NoMemory) => Slot::NoMemory,
    }
}

/// Collects the operation of a ticket, by turns where it isn't complete at once.
#[inline(always)]
fn collect<R: Wait + Sync, O: Operations>(
    rt: &R,
    alloc: Global,
    ticket: u32,
    operations: &mut O,
) -> Completion
    requires sync { IsSync R.row }
    requires begun { IsSome ((O.state operations.old).tickets ticket) }
    ensures { CollectsTicket O.WantsMemory (O.state operations.old) (O.state operations.new) ticket
        result }
{
    for _ in rt.forever() {
        if let Some(completion) = operations.collect(rt, ticket) {
            return completion;
        }
        operations.turn(rt, alloc);
    }
    unreachable!()
}

/// Ends the record of a slot: waits for its operation, where it has one, and collects it.
#[inline(always)]
pub fn settle<R: Wait + Sync, O: Operations>(
    rt: &R,
    alloc: Global,
    slot: Slot,
    operations: &mut O,
) -> Outcome
    requires sync { IsSync R.row }
    requires begun { HasOperation (O.state operations.old) slot }
    ensures { SettlesSlot O.WantsMemory (O.state operations.old)
        (O.state operations.new) slot result }
{
    match slot {
        Slot::Running(ticket) => Outcome::Done(collect(rt, alloc, ticket, operations)),
        Slot::Bad => Outcome::BadRecord,
        Slot::NoMemory => Outcome::Done(Completion::NoMemory),
    }
}
