//! The lines of a piece, one after another, as far as the limits and the writes allow.
ghost use Rattle.std.specs.Prelude.{◌≡◌, ◌≤◌, ◌<◌, ◌+◌, true, false, None, Some, length};
ghost use Rattle.std.specs.Thread.{IsSync};
ghost use Rattle.exec_io.specs.Views.{SinkView};
ghost use Rattle.record_lines.specs.declared.ending.End.{End};
ghost use Rattle.record_lines.specs.declared.limits.TheConstants.{MOST_RECORDS, MOST_BYTES};
ghost use Rattle.record_loop.specs.Flights.{read_of};

use super::Session;
use crate::operations::Operations;
use exec_io::Sink;
use record_lines::{End, MOST_BYTES, MOST_RECORDS};
use std::alloc::Global;
use std::sync::Wait;

impl Session {
    ghost use Rattle.record_loop.specs.Reading.{on, IsTaking, StaysTaking, TakesFront, TakesPiece};
    ghost use Rattle.record_loop.specs.Standing.{MayTake};

    /// Takes the first line of a piece, or what it has of one, and takes the record that ends
    /// there, for which there is room. No write was lost. It gives what is left of the piece.
    fn take_line<'a, R: Wait + Sync, O: Operations>(
        &mut self,
        rt: &R,
        alloc: Global,
        piece: &'a [u8],
        operations: &mut O,
    ) -> &'a [u8]
        requires sync { IsSync R.row }
        requires few { read_of self.old.flight < MOST_RECORDS }
        requires room { length self.old.flight.slots.items < self.old.flight.slots.capacity }
        requires fits { self.old.taken + length piece.now ≤ MOST_BYTES }
        requires some { 0 < length piece.now }
        requires going { MayTake O.WantsMemory (O.state operations.old) self.old.flight }
        ensures taken { self.new.taken + length result.now ≡ self.old.taken + length piece.now }
        ensures shorter { length result.now < length piece.now }
        ensures printer { self.new.flight.printer ≡ self.old.flight.printer }
        ensures advances { (sink : SinkView) → self.old.flight.printer.lost ≡ false →
            TakesFront O.WantsMemory piece.now result.now
            (on (O.state operations.old) sink self.old)
            (on (O.state operations.new) sink self.new) }
    {
        match self.cutter.take(piece) {
            Some(end) => {
                let text = self.cutter.text(&end);
                self.flight.take(rt, alloc, text, operations);
                self.taken += piece.len() - end.rest.len();
                end.rest
            }
            None => {
                self.taken += piece.len();
                &[]
            }
        }
    }

    /// Makes room for one more record.
    fn make_room<R: Wait + Sync, O: Operations, K: Sink>(
        &mut self,
        rt: &R,
        alloc: Global,
        operations: &mut O,
        out: &mut K,
    )
        requires sync { IsSync R.row }
        requires going { IsTaking O.WantsMemory
            (on (O.state operations.old) (K.told out.old) self.old) }
        ensures room { length self.new.flight.slots.items < self.new.flight.slots.capacity }
        ensures read { read_of self.new.flight ≡ read_of self.old.flight }
        ensures taken { self.new.taken ≡ self.old.taken }
        ensures stays { StaysTaking O.WantsMemory
            (on (O.state operations.old) (K.told out.old) self.old)
            (on (O.state operations.new) (K.told out.new) self.new) }
    {
        self.flight.make_room(rt, alloc, operations, out);
    }

    /// Takes the lines of a piece that is within the limit of bytes. `Some` says that nothing more
    /// is read: where a byte of it stands after the most records, or a write was lost. The rest of
    /// the piece is left then.
    fn take_lines<R: Wait + Sync, O: Operations, K: Sink>(
        &mut self,
        rt: &R,
        alloc: Global,
        piece: &[u8],
        operations: &mut O,
        out: &mut K,
    ) -> Option<End>
        requires sync { IsSync R.row }
        requires fits { self.old.taken + length piece.now ≤ MOST_BYTES }
        requires going { IsTaking O.WantsMemory
            (on (O.state operations.old) (K.told out.old) self.old) }
        ensures taken { result ≡ None → self.new.taken ≡ self.old.taken + length piece.now }
        ensures lost { result ≡ Some End.Fault → self.new.flight.printer.lost ≡ true }
        ensures takes { TakesPiece O.WantsMemory piece.now result
            (on (O.state operations.old) (K.told out.old) self.old)
            (on (O.state operations.new) (K.told out.new) self.new) }
    {
        let mut left = piece;
        while !left.is_empty() {
            if self.flight.count_read() == MOST_RECORDS {
                return Some(End::Limit);
            }
            self.make_room(rt, alloc, operations, out);
            let breaks_off = self.flight.is_lost();
            if breaks_off {
                return Some(End::Fault);
            }
            left = self.take_line(rt, alloc, left, operations);
        }
        None
    }

    /// Takes a piece, as far as it is within the limit of bytes. `Some` says that nothing more is
    /// read: where the piece passes a limit, or a write was lost.
    pub(super) fn take_piece<R: Wait + Sync, O: Operations, K: Sink>(
        &mut self,
        rt: &R,
        alloc: Global,
        piece: &[u8],
        operations: &mut O,
        out: &mut K,
    ) -> Option<End>
        requires sync { IsSync R.row }
        requires going { IsTaking O.WantsMemory
            (on (O.state operations.old) (K.told out.old) self.old) }
        ensures taken { result ≡ None → self.new.taken ≡ self.old.taken + length piece.now }
        ensures lost { result ≡ Some End.Fault → self.new.flight.printer.lost ≡ true }
        ensures takes { TakesPiece O.WantsMemory piece.now result
            (on (O.state operations.old) (K.told out.old) self.old)
            (on (O.state operations.new) (K.told out.new) self.new) }
    {
        let room = MOST_BYTES - self.taken;
        if piece.len() <= room {
            return self.take_lines(rt, alloc, piece, operations, out);
        }
        let within = self.take_lines(rt, alloc, &piece[..room], operations, out);
        Some(within.unwrap_or(End::Limit))
    }
}
