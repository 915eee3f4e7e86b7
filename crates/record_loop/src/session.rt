//! Records from the bytes of a source.
ghost use Rattle.std.specs.Prelude.{◌≢◌, ◌≡◌, ◌≤◌, ◌<◌, [], true, false, None, Some, length, IfOk};
ghost use Rattle.std.specs.Thread.{IsSync};
ghost use Rattle.exec_io.specs.Causes.{Rose};
ghost use Rattle.exec_io.specs.Views.{SinkView};
ghost use Rattle.record_lines.specs.declared.ending.End.{End};
ghost use Rattle.record_lines.specs.declared.limits.TheConstants.{MOST_BYTES};

mod taking;

use crate::ending::Ending;
use crate::in_flight::InFlight;
use crate::operations::Operations;
use crate::record_source::RecordSource;
use exec_io::Sink;
use record_lines::{Cutter, End};
use std::alloc::{AllocError, Global};
use std::sync::Wait;

/// Whether the reading came to the end of the stream.
fn has_ended(end: End) -> bool
    ensures yes { result ≡ true → end ≡ End.Ended }
    ensures no { result ≡ false → end ≢ End.Ended }
{
    match end {
        End::Ended => true,
        End::Fault | End::Limit => false,
    }
}

/// A run over the records of a source, which takes their bytes piece by piece.
#[derive(Drop)]
pub struct Session {
    cutter: Cutter,
    flight: InFlight,
    /// How many bytes were taken.
    taken: usize,
    ghost few_bytes: { taken ≤ MOST_BYTES },
}

impl Session {
    ghost use Rattle.record_loop.specs.Reading.{on, IsTaking, StaysTaking, Going, ReadsOn, ReadsCaughtUp, HasHalted, TakesAll, StartsAt};
    ghost use Rattle.record_loop.specs.Ran.{RunsFrom};
    ghost use Rattle.record_loop.specs.Standing.{at};
    ghost use Rattle.record_loop.specs.Cutting.{IsCutting};
    ghost use Rattle.record_loop.specs.Tallies.{TalliesWith};

    /// A session with these records in flight, of which there are none yet.
    pub fn open(alloc: Global, flight: InFlight) -> Result<Session, AllocError>
        ensures { IfOk result (IsCutting flight) }
    {
        Ok(Session {
            cutter: Cutter::new(alloc)?,
            flight,
            taken: 0,
        })
    }

    /// Writes all records in flight, and hands on what was written.
    fn catch_up<R: Wait + Sync, O: Operations, K: Sink>(
        &mut self,
        rt: &R,
        alloc: Global,
        operations: &mut O,
        out: &mut K,
    )
        requires sync { IsSync R.row }
        requires going { IsTaking O.WantsMemory
            (on (O.state operations.old) (K.told out.old) self.old) }
        ensures taken { self.new.taken ≡ self.old.taken }
        ensures none { self.new.flight.slots.items ≡ [] }
        ensures settled { self.new.flight.printer.lost ≡ false
            → self.new.flight.printer.due ≡ false }
        ensures stays { StaysTaking O.WantsMemory
            (on (O.state operations.old) (K.told out.old) self.old)
            (on (O.state operations.new) (K.told out.new) self.new) }
    {
        self.flight.write_all(rt, alloc, operations, out);
        self.flight.hand_on(out);
    }

    /// Writes what is in flight, reads a piece and takes it. `Some` says that nothing more is read:
    /// after a lost write and after a fault the end is `Fault`.
    fn step<R: Wait + Sync, O: Operations, S: RecordSource, K: Sink>(
        &mut self,
        rt: &R,
        alloc: Global,
        buffer: &mut [u8],
        operations: &mut O,
        records: &mut S,
        out: &mut K,
    ) -> Option<End>
        requires sync { IsSync R.row }
        requires some { 0 < length buffer.old }
        requires going { IsTaking O.WantsMemory
            (on (O.state operations.old) (K.told out.old) self.old) }
        ensures longer { result ≡ None → self.old.taken < self.new.taken }
        ensures later { (S.told records.old).faults ≤ (S.told records.new).faults }
        ensures cause { result ≡ Some End.Fault → self.new.flight.printer.lost ≡ false →
            Rose (S.told records.old).faults (S.told records.new).faults }
        ensures still { result ≢ Some End.Fault
            → (S.told records.new).faults ≡ (S.told records.old).faults }
        ensures reads { ReadsCaughtUp O.WantsMemory (S.told records.old).left
            (on (O.state operations.old) (K.told out.old) self.old)
            (S.reads records.old) (S.reads records.new) }
        ensures goes { ReadsOn O.WantsMemory result
            (S.told records.old).left (S.told records.new).left
            (on (O.state operations.old) (K.told out.old) self.old)
            (on (O.state operations.new) (K.told out.new) self.new) }
    {
        self.catch_up(rt, alloc, operations, out);
        let lost = self.flight.is_lost();
        if lost {
            return Some(End::Fault);
        }
        let answer = records.read_beside(buffer, out);
        let Ok(count) = answer else {
            return Some(End::Fault);
        };
        if count == 0 {
            return Some(End::Ended);
        }
        self.take_piece(rt, alloc, &buffer[..count], operations, out)
    }

    /// Takes what the end leaves to take: where the input ended, the record of a last line that no
    /// line feed ended, for which there is room, since all others are written. It gives the records
    /// in flight.
    fn take_rest<R: Wait + Sync, O: Operations>(
        self,
        rt: &R,
        alloc: Global,
        end: End,
        operations: &mut O,
    ) -> InFlight
        requires sync { IsSync R.row }
        requires halted { HasHalted O.WantsMemory end (O.state operations.old) self }
        ensures printer { result.printer ≡ self.flight.printer }
        ensures all { (sink : SinkView) → TakesAll O.WantsMemory end
            (on (O.state operations.old) sink self) (at (O.state operations.new) sink result) }
    {
        let Session {
            mut cutter,
            mut flight,
            taken: _,
        } = self;
        if !has_ended(end) {
            return flight;
        }
        let Some(last) = cutter.finish() else {
            return flight;
        };
        flight.take(rt, alloc, cutter.text(&last), operations);
        flight
    }

    /// Reads all records and writes their outcomes, and says how this ended.
    pub fn run<R: Wait + Sync, O: Operations, S: RecordSource, K: Sink>(
        mut self,
        rt: &R,
        alloc: Global,
        buffer: &mut [u8],
        operations: &mut O,
        records: &mut S,
        out: &mut K,
    ) -> Ending
        requires sync { IsSync R.row }
        requires some { 0 < length buffer.old }
        requires new { StartsAt O.WantsMemory
            (on (O.state operations.old) (K.told out.old) self) }
        ensures later { (S.told records.old).faults ≤ (S.told records.new).faults }
        ensures still { result.end ≢ End.Fault
            → (S.told records.new).faults ≡ (S.told records.old).faults }
        ensures reads { ReadsCaughtUp O.WantsMemory (S.told records.old).left
            (on (O.state operations.old) (K.told out.old) self)
            (S.reads records.old) (S.reads records.new) }
        ensures ran { RunsFrom O.WantsMemory (on (O.state operations.old) (K.told out.old) self)
            (S.told records.old) (S.told records.new)
            (O.state operations.new).collected (K.told out.new) result }
        ensures told { TalliesWith (O.state operations.new).collected result.summary }
        ensures ended { (O.state operations.new).running ≡ 0 }
        ensures plan { (O.state operations.new).plan ≡ (O.state operations.old).plan }
    {
        let end = 'pieces: loop {
            if let Some(end) = self.step(rt, alloc, buffer, operations, records, out) {
                break end;
            }
        };
        let mut flight = self.take_rest(rt, alloc, end, operations);
        flight.write_all(rt, alloc, operations, out);
        flight.finish(end, out)
    }
}
