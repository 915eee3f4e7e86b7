//! The records that were read and aren't written yet, and the lines of those that are.
ghost use Rattle.std.specs.Prelude.{◌≡◌, ◌<◌, ◌≤◌, ◌+◌, ◌-◌, true, false, [], length, IfOk, Some};
ghost use Rattle.std.specs.Option.{option_copied};
ghost use Rattle.std.specs.Thread.{IsSync};
ghost use Rattle.node_tree.specs.declared.scope_kind.ScopeKind.{ScopeKind};
ghost use Rattle.record_lines.specs.declared.limits.TheConstants.{MOST_RECORDS};
ghost use Rattle.exec_io.specs.Views.{SinkView};
ghost use Rattle.outcome_lines.specs.Summary.{is_error};
ghost use Rattle.record_loop.specs.Works.{Requests};

use crate::ending::Ending;
use crate::operations::Operations;
use crate::printer::{Form, Printer};
use crate::slot::{Slot, begin, settle};
use circular_buffer::HeapCircularBuffer;
use exec_io::Sink;
use exec_value::Outcome;
use line_summary::is_error as is_error_line;
use plan_rules::Settings;
use record_lines::{End, MOST_RECORDS};
use std::alloc::{AllocError, Global};
use std::sync::Wait;

/// Whether record `number` is the one after which a stop is requested.
fn is_due(after: Option<u32>, number: u32) -> bool
    ensures yes { result ≡ true → after ≡ Some number }
    ensures no { result ≡ false → after ≡ Some number → ⊥ }
{
    match after {
        Some(k) => k == number,
        None => false,
    }
}

/// Whether a stop is requested after this line: the rule is set, and it is an error.
fn is_failure(on_error: bool, outcome: &Outcome) -> bool
    ensures yes { result ≡ true → (on_error ≡ true) × (is_error outcome.now ≡ true) }
    ensures no { result ≡ false → on_error ≡ true → is_error outcome.now ≡ false }
{
    on_error && is_error_line(outcome)
}

/// The records that are worked on, in order, and the printer of those that are done.
#[derive(Drop)]
pub struct InFlight {
    slots: HeapCircularBuffer<Slot>,
    printer: Printer,
    settings: Settings,
    /// Whether a stop was requested.
    requested: bool,
    ghost few: { printer.summary.lines + length slots.items ≤ MOST_RECORDS },
    ghost some: { 0 < slots.capacity },
}

impl InFlight {
    ghost use Rattle.record_loop.specs.declared.in_flight.InFlight.{InFlight};
    ghost use Rattle.record_loop.specs.Standing.{at, IsGoing, MayTake, StaysStanding, CountsNext, BeginsNext, Takes};
    ghost use Rattle.record_loop.specs.Flights.{IsFresh, read_of, Requested, MayAsk};
    ghost use Rattle.record_loop.specs.Printing.{over, AppendsAtLeast, HasWrittenNone, KeepsWritten, FinishesAll, OnlyAppends};

    /// No records, and room for `window` of them at once: all the memory that is taken for them.
    pub fn open(
        alloc: Global,
        window: usize,
        settings: Settings,
        form: Form,
    ) -> Result<InFlight, AllocError>
        requires some { 0 < window }
        ensures { IfOk result (IsFresh window settings form) }
    {
        Ok(InFlight {
            slots: HeapCircularBuffer::with_capacity(alloc, window)?,
            printer: Printer::new(form),
            settings,
            requested: false,
        })
    }

    /// How many records were read.
    pub fn count_read(&self) -> usize
        ensures value { result ≡ read_of self.now }
        ensures few { result ≤ MOST_RECORDS }
    {
        self.printer.lines() as usize + self.slots.len()
    }

    /// Requests a stop, unless it was requested before.
    fn request<R: Wait + Sync, O: Operations>(&mut self, rt: &R, operations: &mut O)
        requires sync { IsSync R.row }
        requires counting { (O.state operations.old).plan.settings.scope ≡ ScopeKind.Counting }
        ensures again { self.old.requested ≡ true
            → O.state operations.new ≡ O.state operations.old }
        ensures first { self.old.requested ≡ false
            → Requests (O.state operations.old) (O.state operations.new) }
        ensures requested { Requested self.old self.new }
    {
        if self.requested {
            return;
        }
        operations.request(rt);
        self.requested = true;
    }

    /// Requests a stop where the next record, which counts as read from here on, is the one after
    /// which a stop is due: before the record is begun.
    fn request_due<R: Wait + Sync, O: Operations>(&mut self, rt: &R, operations: &mut O)
        requires sync { IsSync R.row }
        requires counting { MayAsk (O.state operations.old) self.old }
        requires room { length self.old.slots.items < self.old.slots.capacity }
        requires few { read_of self.old < MOST_RECORDS }
        ensures slots { self.new.slots ≡ self.old.slots }
        ensures printer { self.new.printer ≡ self.old.printer }
        ensures settings { self.new.settings ≡ self.old.settings }
        ensures counts { (sink : SinkView) → CountsNext O.WantsMemory
            (at (O.state operations.old) sink self.old)
            (at (O.state operations.new) sink self.new) }
    {
        let number = self.count_read() as u32 + 1;
        if !is_due(self.settings.stop_after, number) {
            return;
        }
        self.request(rt, operations);
    }

    /// Writes the first record in flight, once its operation is complete. Where its line is the
    /// first error, and a stop is requested then, the request is made here.
    fn write_next<R: Wait + Sync, O: Operations, K: Sink>(
        &mut self,
        rt: &R,
        alloc: Global,
        operations: &mut O,
        out: &mut K,
    )
        requires sync { IsSync R.row }
        requires going { IsGoing O.WantsMemory
            (at (O.state operations.old) (K.told out.old) self.old) }
        ensures slots { length self.new.slots.items ≡ length self.old.slots.items - 1 }
        ensures stays_lost { self.old.printer.lost ≡ true → self.new.printer.lost ≡ true }
        ensures capacity { self.new.slots.capacity ≡ self.old.slots.capacity }
        ensures read { read_of self.new ≡ read_of self.old }
        ensures stays { StaysStanding O.WantsMemory
            (at (O.state operations.old) (K.told out.old) self.old)
            (at (O.state operations.new) (K.told out.new) self.new) }
    {
        let Some(slot) = self.slots.pop_front() else {
            return;
        };
        let outcome = settle(rt, alloc, slot, operations);
        self.printer.print(&outcome, out);
        let failed = is_failure(self.settings.on_error_stop, &outcome);
        drop(outcome);
        if !failed {
            return;
        }
        self.request(rt, operations);
    }

    /// Begins the next record, which was counted and whose line has this text, and puts it in
    /// flight.
    fn begin_next<R: Wait + Sync, O: Operations>(
        &mut self,
        rt: &R,
        alloc: Global,
        text: Option<&[u8]>,
        operations: &mut O,
    )
        requires sync { IsSync R.row }
        requires kind { self.old.settings.input ≡ (O.state operations.old).plan.settings.input }
        requires room { length self.old.slots.items < self.old.slots.capacity }
        requires few { read_of self.old < MOST_RECORDS }
        ensures capacity { self.new.slots.capacity ≡ self.old.slots.capacity }
        ensures printer { self.new.printer ≡ self.old.printer }
        ensures read { read_of self.new ≡ read_of self.old + 1 }
        ensures begun { (sink : SinkView) → BeginsNext O.WantsMemory (option_copied text.entry)
            (at (O.state operations.old) sink self.old)
            (at (O.state operations.new) sink self.new) }
    {
        let number = self.count_read() as u32 + 1;
        let slot = begin(rt, alloc, self.settings.input, number, text, operations);
        let _ = self.slots.try_push_back(slot);
    }

    /// Writes the first record in flight, where the window is full.
    pub fn make_room<R: Wait + Sync, O: Operations, K: Sink>(
        &mut self,
        rt: &R,
        alloc: Global,
        operations: &mut O,
        out: &mut K,
    )
        requires sync { IsSync R.row }
        requires going { IsGoing O.WantsMemory
            (at (O.state operations.old) (K.told out.old) self.old) }
        ensures room { length self.new.slots.items < self.new.slots.capacity }
        ensures read { read_of self.new ≡ read_of self.old }
        ensures stays { StaysStanding O.WantsMemory
            (at (O.state operations.old) (K.told out.old) self.old)
            (at (O.state operations.new) (K.told out.new) self.new) }
    {
        if self.slots.len() < self.slots.capacity() {
            return;
        }
        self.write_next(rt, alloc, operations, out);
    }

    /// Takes the next record, whose line has this text. There is room for it, and it may be begun:
    /// no write was lost.
    pub fn take<R: Wait + Sync, O: Operations>(
        &mut self,
        rt: &R,
        alloc: Global,
        text: Option<&[u8]>,
        operations: &mut O,
    )
        requires sync { IsSync R.row }
        requires going { MayTake O.WantsMemory (O.state operations.old) self.old }
        requires room { length self.old.slots.items < self.old.slots.capacity }
        requires few { read_of self.old < MOST_RECORDS }
        ensures printer { self.new.printer ≡ self.old.printer }
        ensures read { read_of self.new ≡ read_of self.old + 1 }
        ensures takes { (sink : SinkView) → Takes O.WantsMemory (option_copied text.entry)
            (at (O.state operations.old) sink self.old)
            (at (O.state operations.new) sink self.new) }
    {
        self.request_due(rt, operations);
        self.begin_next(rt, alloc, text, operations);
    }

    /// Writes all records in flight, in order.
    pub fn write_all<R: Wait + Sync, O: Operations, K: Sink>(
        &mut self,
        rt: &R,
        alloc: Global,
        operations: &mut O,
        out: &mut K,
    )
        requires sync { IsSync R.row }
        requires going { IsGoing O.WantsMemory
            (at (O.state operations.old) (K.told out.old) self.old) }
        ensures none { self.new.slots.items ≡ [] }
        ensures stays_lost { self.old.printer.lost ≡ true → self.new.printer.lost ≡ true }
        ensures stays { StaysStanding O.WantsMemory
            (at (O.state operations.old) (K.told out.old) self.old)
            (at (O.state operations.new) (K.told out.new) self.new) }
    {
        'flight: while !self.slots.is_empty() {
            self.write_next(rt, alloc, operations, out);
        }
    }

    /// Whether a write was lost.
    pub fn is_lost(&self) -> bool
        ensures { result ≡ self.now.printer.lost }
    {
        self.printer.is_lost()
    }

    /// Hands on what was written.
    pub fn hand_on<K: Sink>(&mut self, out: &mut K)
        ensures slots { self.new.slots ≡ self.old.slots }
        ensures requested { self.new.requested ≡ self.old.requested }
        ensures settings { self.new.settings ≡ self.old.settings }
        ensures form { self.new.printer.form ≡ self.old.printer.form }
        ensures summary { self.new.printer.summary ≡ self.old.printer.summary }
        ensures wrote { KeepsWritten
            (over (K.told out.old) self.old.printer) (over (K.told out.new) self.new.printer) }
        ensures none { HasWrittenNone self.old.printer → HasWrittenNone self.new.printer }
        ensures settled { self.new.printer.lost ≡ false → self.new.printer.due ≡ false }
        ensures grows { AppendsAtLeast (K.told out.old).written (K.told out.new).written [] }
    {
        self.printer.hand_on(out);
    }

    /// Writes what is left to write once no record is in flight, and says how the run ended, whose
    /// reading ended so.
    pub fn finish<K: Sink>(self, end: End, out: &mut K) -> Ending
        ensures end { result.end ≡ end }
        ensures stays_lost { self.printer.lost ≡ true → result.lost ≡ true }
        ensures finished { FinishesAll (over (K.told out.old) self.printer)
            (K.told out.new) result.summary result.lost }
        ensures grows { OnlyAppends (over (K.told out.old) self.printer) (K.told out.new) }
    {
        let InFlight {
            slots: _,
            mut printer,
            settings: _,
            requested: _,
        } = self;
        printer.finish(out);
        Ending::new(end, printer.is_lost(), printer.summary())
    }
}
