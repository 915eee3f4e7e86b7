//! The one line that stands in place of all others.
ghost use Rattle.std.specs.Prelude.{List};
ghost use Rattle.outcome_lines.specs.Summary.{summary_of};
ghost use Rattle.exec_io.specs.Writing.{Puts};
ghost use Rattle.exec_value.specs.declared.outcome.Outcome.{Outcome};
ghost use Rattle.line_summary.specs.Counting.{Summarizes};
ghost use Rattle.line_summary.specs.SummaryText.{two_counts, four_counts, six_counts, text_of};

use crate::put::{put_number, put_signed};
use crate::summary::Summary;
use exec_io::{Failed, Sink, put_bytes};

/// Writes the first two counts: how many lines there are, and how many values.
fn put_two_counts<K: Sink>(summary: &Summary, sink: &mut K) -> Result<(), Failed>
    ensures { Puts (K.told sink.old) (K.told sink.new) result
        (two_counts summary.now) }
{
    put_bytes(b"records ", sink)?;
    put_number(summary.lines, sink)?;
    put_bytes(b" values ", sink)?;
    put_number(summary.values, sink)
}

/// Writes the first four: these, and how many lines are errors or stopped.
fn put_four_counts<K: Sink>(summary: &Summary, sink: &mut K) -> Result<(), Failed>
    ensures { Puts (K.told sink.old) (K.told sink.new) result
        (four_counts summary.now) }
{
    put_two_counts(summary, sink)?;
    put_bytes(b" errors ", sink)?;
    put_number(summary.errors, sink)?;
    put_bytes(b" stopped ", sink)?;
    put_number(summary.stopped, sink)
}

/// Writes all six: these, and how many lines are out-of-memory or bad records.
fn put_six_counts<K: Sink>(summary: &Summary, sink: &mut K) -> Result<(), Failed>
    ensures { Puts (K.told sink.old) (K.told sink.new) result
        (six_counts summary.now) }
{
    put_four_counts(summary, sink)?;
    put_bytes(b" out-of-memory ", sink)?;
    put_number(summary.no_memory, sink)?;
    put_bytes(b" bad ", sink)?;
    put_number(summary.bad, sink)
}

/// Writes the whole line.
fn put_text<K: Sink>(summary: &Summary, sink: &mut K) -> Result<(), Failed>
    ensures { Puts (K.told sink.old) (K.told sink.new) result (text_of summary.now) }
{
    put_six_counts(summary, sink)?;
    put_bytes(b" sum ", sink)?;
    put_signed(summary.sum, sink)?;
    put_bytes(b"\n", sink)
}

/// Writes the summary line of the outcomes that the summary has counted. It takes no memory.
///
/// `Failed` comes only where the sink's count of faults rose, and then a front of the line was
/// appended.
pub fn put_summary<K: Sink>(summary: &Summary, sink: &mut K) -> Result<(), Failed>
    ensures { (outcomes : List Outcome) → Summarizes summary.now outcomes →
        Puts (K.told sink.old) (K.told sink.new) result (summary_of outcomes) }
{
    put_text(summary, sink)
}
