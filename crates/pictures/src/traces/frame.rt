//! Which rows are shown.
ghost use Rattle.std.specs.Prelude.{◌≡◌, ◌≤◌, length};
ghost use Rattle.pictures.specs.Traces.Frames.{shown_frame, is_shown, rows_shown, row_top};
ghost use Rattle.trace_text.specs.declared.limits.TheConstants.{ENTRIES};

use crate::traces::layout::row_y;
use crate::traces::shown::Shown;
use trace_text::Trace;

/// The rows that are shown, and how many columns of blocks stand left of the lanes.
#[derive(Clone, Copy)]
pub(crate) struct Frame {
    /// How many blocks there are.
    pub(crate) blocks: u32,
    /// The first entry that is shown, from 0.
    pub(crate) from: u64,
    /// The first behind `from` that isn't.
    pub(crate) to: u64,
}

/// What is shown of a trace.
pub(crate) fn shown_frame(trace: &Trace, shown: Shown) -> Frame
    ensures frame { result ≡ shown_frame trace.now shown }
    ensures few { result.to ≤ ENTRIES }
{
    let blocks = trace.opening().blocks();
    let entries = trace.entries().len() as u64;
    Frame {
        blocks,
        from: u64::from(shown.first).saturating_sub(1),
        to: u64::from(shown.last).min(entries),
    }
}

/// Whether an entry is shown, by its number from 0.
pub(crate) fn is_shown(frame: Frame, number: u64) -> bool
    ensures { result ≡ is_shown frame number }
{
    frame.from <= number && number < frame.to
}

/// How many rows are shown.
pub(crate) fn rows_shown(frame: Frame) -> u64
    ensures { result ≡ rows_shown frame }
{
    frame.to.saturating_sub(frame.from)
}

/// Where the row of an entry begins, by its number from 0.
pub(crate) fn row_top(frame: Frame, number: u64) -> u64
    requires { number ≤ ENTRIES }
    ensures { result ≡ row_top frame number }
{
    row_y(number.saturating_sub(frame.from))
}
