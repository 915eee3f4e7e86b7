//! Where a line ends in a piece of a stream.
ghost use Rattle.std.specs.Prelude.{MatchOption};
ghost use Rattle.record_lines.specs.Lines.{HasNoLineFeed};
ghost use Rattle.record_lines.specs.LineEnds.{IsSplitAt};

use crate::limits::LINE_FEED;
use memchr::memchr;

/// A piece of a stream at its first line feed, which ends a line.
#[derive(Clone, Copy, Debug)]
pub struct LineEnd<'a> {
    /// The bytes before the line feed.
    pub front: &'a [u8],
    /// The bytes after it.
    pub rest: &'a [u8],
}

// Where the first line of a piece ends.
pub(crate) fn first_line_end(piece: &[u8]) -> Option<LineEnd<'_>>
    ensures { MatchOption result (HasNoLineFeed piece.now) (IsSplitAt piece.now) }
{
    let at = memchr(LINE_FEED, piece)?;
    Some(LineEnd {
        front: &piece[..at],
        rest: &piece[at + 1..],
    })
}
