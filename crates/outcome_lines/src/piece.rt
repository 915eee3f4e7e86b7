//! Bytes that are gathered, to be written in one piece.
ghost use Rattle.std.specs.Prelude.{◌≡◌, ◌+◌, ◌<◌, ◌≤◌, [], ◌++◌, length, take, IfOk, OnErr};
ghost use Rattle.exec_io.specs.Causes.{HasCause};
ghost use Rattle.exec_io.specs.Sinks.{Appends};
ghost use Rattle.outcome_lines.specs.Pieces.{PieceState, piece_view};
ghost use Rattle.outcome_lines.specs.declared.piece.TheConstants.{PIECE_BYTES};

use exec_io::{Failed, Sink};
use std::marker::Model;

/// How many bytes a piece has at most.
pub(crate) const PIECE_BYTES: usize = 128;

/// Bytes that are gathered, to be written in one piece. It is a sink at which a write fails that
/// doesn't fit.
#[derive(Drop)]
pub(crate) struct Piece {
    bytes: [u8; PIECE_BYTES],
    count: usize,
    faults: u64,
    ghost within: { count ≤ PIECE_BYTES },
}

impl Model for Piece {
    ghost Value = { PieceState };

    ghost view = { λ piece. record {
      bytes = take piece.count piece.bytes;
      faults = piece.faults;
    } };
}

impl Piece {
    /// A piece of no bytes.
    pub(crate) fn empty() -> Self
        ensures { result.bytes ≡ [] }
    {
        Piece {
            bytes: [0; PIECE_BYTES],
            count: 0,
            faults: 0,
        }
    }

    /// The bytes.
    pub(crate) fn as_slice(&self) -> &[u8]
        ensures { result.now ≡ self.now.bytes }
    {
        &self.bytes[..self.count]
    }

    // Takes bytes that fit.
    fn push(&mut self, more: &[u8])
        requires { length self.old.bytes + length more.now ≤ PIECE_BYTES }
        ensures bytes { self.new.bytes ≡ self.old.bytes ++ more.now }
        ensures faults { self.new.faults ≡ self.old.faults }
    {
        let end = self.count + more.len();
        self.bytes[self.count..end].copy_from_slice(more);
        self.count = end;
    }
}

impl Sink for Piece {
    ghost told = { piece_view };

    /// Takes all of these bytes, or none where they don't fit.
    fn write(&mut self, piece: &[u8]) -> Result<usize, Failed>
        requires { 0 < length piece.now }
        ensures count { IfOk result (λ n. (1 ≤ n) × (n ≤ length piece.now)) }
        ensures ok { IfOk result (λ n.
            Appends (piece_view self.old).written (piece_view self.new).written
            (take n piece.now)) }
        ensures err { OnErr result
            (Appends (piece_view self.old).written (piece_view self.new).written []) }
        ensures cause { HasCause self.old.faults self.new.faults result }
    {
        if piece.len() > PIECE_BYTES - self.count {
            self.faults = self.faults.saturating_add(1);
            return Err(Failed);
        }
        self.push(piece);
        Ok(piece.len())
    }

    /// Does nothing: what was gathered stays.
    fn finish(&mut self) -> Result<(), Failed>
        ensures written { Appends (piece_view self.old).written (piece_view self.new).written [] }
        ensures cause { HasCause self.old.faults self.new.faults result }
    {
        Ok(())
    }
}
