//! A cutter takes a stream piece by piece and hands out its lines.
ghost use Rattle.std.specs.Prelude.{◌≡◌, [], ◌++◌, ◌<◌, ◌≤◌, length, take, vec_len, vec_capacity, IfOk, IfSome, MatchOption};
ghost use Rattle.std.specs.Option.{option_copied};
ghost use Rattle.record_lines.specs.declared.limits.TheConstants.{MOST_LINE};
ghost use Rattle.record_lines.specs.Lines.{HasNoLineFeed, text_of, without_cr};
ghost use Rattle.record_lines.specs.LineEnds.{IsSplitAt};
ghost use Rattle.record_lines.specs.Cutters.{room, line_at, line_kept, StandsAfter, Takes, Finishes};

use crate::limits::MOST_LINE;
use crate::line_end::{LineEnd, first_line_end};
use crate::text::text_of;
use std::alloc::{AllocError, Global};
use std::marker::Model;

// The most bytes that are kept of a line: those of a longest record, a carriage return, and one
// that shows that there were more. A longer line has no text, whatever else stands in it.
const ROOM: usize = MOST_LINE + 2;

/// Cuts a stream into lines. It is handed the stream piece by piece, and keeps no more than the
/// first bytes of one line, in memory that is reserved at the start.
///
/// Contracts see it as what it keeps of the line that no line feed has ended, and of the one that
/// ended last.
#[derive(Debug, Drop)]
pub struct Cutter {
    // The first bytes of a line.
    kept: Vec<u8>,
    // Whether that line is ended, and the next part begins another one.
    is_ended: bool,
}

impl Model for Cutter {
    ghost use Rattle.std.specs.Prelude.{◌≤◌, vec_len, vec_capacity};
    ghost use Rattle.record_lines.specs.Cutters.{Held, held_by, room};

    ghost Value = { Held };

    ghost view = { λ c. held_by c.kept.items c.is_ended };

    ghost invariant = { λ c. (vec_len c.kept ≤ room) × (room ≤ vec_capacity c.kept) };
}

impl Cutter {
    /// A cutter at the start of a stream, with all the memory that it will need. It fails only for
    /// want of memory.
    pub fn new(alloc: Global) -> Result<Cutter, AllocError>
        ensures { IfOk result (λ c. StandsAfter c []) }
    {
        let kept = Vec::with_capacity(alloc, room())?;
        Ok(Cutter {
            kept,
            is_ended: false,
        })
    }

    /// Takes the next piece of the stream, up to its first line feed. `Some` says that a line ended
    /// there, which [`Cutter::text`] shows; the rest of the piece is to be taken next. `None` says
    /// that the piece has no line feed: the whole of it was taken.
    pub fn take<'a>(&mut self, piece: &'a [u8]) -> Option<LineEnd<'a>>
        ensures split { MatchOption result (HasNoLineFeed piece.now) (IsSplitAt piece.now) }
        ensures shorter { IfSome result (λ end. length end.rest.now < length piece.now) }

        // Whatever bytes came before, the lines of the stream go on so.
        ensures lines { Takes piece.now self.old self.new result }
    {
        let Some(end) = first_line_end(piece) else {
            self.keep(piece);
            return None;
        };
        self.end_line(end.front);
        Some(end)
    }

    /// Ends the stream. `Some` says that bytes stood after its last line feed: they are a last
    /// line, which [`Cutter::text`] shows. Afterwards the cutter is at the start of a stream.
    pub fn finish(&mut self) -> Option<LineEnd<'static>>
        ensures last { Finishes self.old self.new result }
        ensures start { StandsAfter self.new [] }
    {
        let has_last_line = !self.rest().is_empty();
        self.is_ended = true;
        has_last_line.then_some(LineEnd {
            front: &[],
            rest: &[],
        })
    }

    /// The line that ended last, at the end that `take` or `finish` gave, without the carriage
    /// return at its end; `None` where it has more than [`MOST_LINE`] bytes even so.
    pub fn text<'a>(&'a self, end: &LineEnd<'a>) -> Option<&'a [u8]>
        ensures value { option_copied result ≡ text_of (without_cr (line_at self.now end.now)) }
        ensures short { IfSome result (λ text. length text.now ≤ MOST_LINE) }
    {
        let line = self.line();
        text_of(if line.is_empty() { end.front } else { line })
    }

    // What is kept of the line that no line feed has ended.
    fn rest(&self) -> &[u8]
        ensures { result.now ≡ self.now.rest }
    {
        if self.is_ended { &[] } else { &self.kept }
    }

    // What is kept of the line that ended last.
    fn line(&self) -> &[u8]
        ensures { result.now ≡ self.now.line }
    {
        if self.is_ended { &self.kept } else { &[] }
    }

    // Goes on with the line that no line feed has ended.
    fn keep(&mut self, part: &[u8])
        ensures { self.new.rest ≡ take room (self.old.rest ++ part.now) }
    {
        if self.is_ended {
            self.kept.clear();
            self.is_ended = false;
        }
        append(&mut self.kept, part);
    }

    // Ends that line with a last part. A line that stands whole in the part isn't copied.
    fn end_line(&mut self, part: &[u8])
        ensures rest { self.new.rest ≡ [] }
        ensures line { self.new.line ≡ line_kept self.old.rest part.now }
    {
        if self.rest().is_empty() {
            self.kept.clear();
        } else {
            self.keep(part);
        }
        self.is_ended = true;
    }
}

// Adds the first bytes of a part, as many as there is room for.
fn append(kept: &mut Vec<u8>, part: &[u8])
    requires within { vec_len kept.old ≤ room }
    requires reserved { room ≤ vec_capacity kept.old }
    ensures items { kept.new.items ≡ take room (kept.old.items ++ part.now) }
    ensures within { vec_len kept.new ≤ room }
    ensures reserved { room ≤ vec_capacity kept.new }
{
    let free = room() - kept.len();
    let front = &part[..part.len().min(free)];
    kept.extend_from_slice(front).unwrap();
}

// `ROOM` under a name that proofs don't compute.
#[tactic(auto, unfolding(crate::specs::Cutters::room))]
fn room() -> usize
    ensures { result ≡ room }
{
    ROOM
}
