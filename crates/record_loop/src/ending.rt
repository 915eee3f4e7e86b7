//! How a run over records ended.
ghost use Rattle.std.specs.Prelude.{◌≡◌};

use line_summary::Summary;
use record_lines::End;

/// How a run over records ended.
#[derive(Clone, Copy, Debug)]
pub struct Ending {
    end: End,
    lost: bool,
    summary: Summary,
}

impl Ending {
    ghost use Rattle.record_loop.specs.declared.ending.Ending.{Ending};

    /// The ending of these parts.
    pub(crate) fn new(end: End, lost: bool, summary: Summary) -> Ending
        ensures { result ≡ record { end = end; lost = lost; summary = summary } }
    {
        Ending { end, lost, summary }
    }

    /// How the reading ended: after a lost write, by no fault of the source, it is `Fault` too.
    pub fn end(&self) -> End
        ensures { result ≡ self.now.end }
    {
        self.end
    }

    /// Whether a write was lost.
    pub fn is_lost(&self) -> bool
        ensures { result ≡ self.now.lost }
    {
        self.lost
    }

    /// The numbers of the lines.
    pub fn summary(&self) -> &Summary
        ensures { result.now ≡ self.now.summary }
    {
        &self.summary
    }
}
