//! The commands that show a file.
ghost use Rattle.std.specs.Prelude.{◌≡◌, ◌↔◌, None, IfSome};
ghost use Rattle.exec_io.specs.Outside.{outside};
ghost use Rattle.exec_io.specs.Views.{SourceView};
ghost use Rattle.picture_commands.specs.Answers.{the_plan, the_text, the_trace, the_why, the_write};
ghost use Rattle.show_words.specs.Asks.{asked_of};
ghost use Rattle.picture_commands.specs.Shows.{ShowEnds, UsageShown, file_of, question_of};
ghost use Rattle.trace_commands.specs.Ends.{Ends};

use crate::answer::print_answer;
use crate::missing::name_missing;
use crate::plan_answer::plan_answer;
use crate::text_answer::text_answer;
use crate::trace_answer::trace_answer;
use crate::why_answer::why_answer;
use crate::write_answer::write_answer;
use exec_io::{Shelf, Sink};
use exec_status::{Status, conclude, refuse};
use show_words::{Asked, Rows, read_words, show_usage_lines};
use std::alloc::Global;
use trace_commands::give_up;

/// Writes the picture of the plan of this name, or why it is refused.
///
/// The status is `AllValues` with a picture and `NotAllValues` with a refusal; `NoMemory`;
/// `ReadFault` where the shelf failed; and `WriteFault` where out or notes failed.
fn show_plan<F: Shelf, K: Sink, N: Sink>(
    alloc: Global,
    name: &str,
    shelf: &mut F,
    out: &mut K,
    notes: &mut N,
) -> Status
    // Whatever a source of records tells, none are read.
    ensures { (records : SourceView) → Ends the_plan name.now
        (outside (F.told shelf.old) records (K.told out.old) (N.told notes.old))
        (outside (F.told shelf.new) records (K.told out.new) (N.told notes.new)) result }
{
    match plan_answer(alloc, name, shelf) {
        Ok(answer) => conclude(print_answer(&answer, out), notes),
        Err(fault) => give_up(fault, notes),
    }
}

/// Writes the picture of these rows of the trace of this name.
///
/// The status is `AllValues` with it; `PlanRefused` where the file is no trace; `NoMemory`;
/// `ReadFault` where the shelf failed; and `WriteFault` where out or notes failed.
fn show_trace<F: Shelf, K: Sink, N: Sink>(
    alloc: Global,
    name: &str,
    rows: Rows,
    shelf: &mut F,
    out: &mut K,
    notes: &mut N,
) -> Status
    // Whatever a source of records tells, none are read.
    ensures { (records : SourceView) → Ends (the_trace rows) name.now
        (outside (F.told shelf.old) records (K.told out.old) (N.told notes.old))
        (outside (F.told shelf.new) records (K.told out.new) (N.told notes.new)) result }
{
    match trace_answer(alloc, name, rows, shelf) {
        Ok(answer) => conclude(print_answer(&answer, out), notes),
        Err(fault) => give_up(fault, notes),
    }
}

/// Writes why an entry of the trace of this name is refused, or what is open at its end.
///
/// The status is `AllValues` where each entry is a step, and `NotAllValues` where one is refused;
/// `PlanRefused` where the file is no trace; `NoMemory`; `ReadFault` where the shelf failed; and
/// `WriteFault` where out or notes failed.
fn show_why<F: Shelf, K: Sink, N: Sink>(
    alloc: Global,
    name: &str,
    shelf: &mut F,
    out: &mut K,
    notes: &mut N,
) -> Status
    // Whatever a source of records tells, none are read.
    ensures { (records : SourceView) → Ends the_why name.now
        (outside (F.told shelf.old) records (K.told out.old) (N.told notes.old))
        (outside (F.told shelf.new) records (K.told out.new) (N.told notes.new)) result }
{
    match why_answer(alloc, name, shelf) {
        Ok(answer) => conclude(print_answer(&answer, out), notes),
        Err(fault) => give_up(fault, notes),
    }
}

/// Writes the plan of the text of this name as JSON, or where and why it is none.
///
/// The status is `AllValues` with a plan and `NotAllValues` with a refusal; `NoMemory`; `ReadFault`
/// where the shelf failed; and `WriteFault` where out or notes failed.
fn show_write<F: Shelf, K: Sink, N: Sink>(
    alloc: Global,
    name: &str,
    shelf: &mut F,
    out: &mut K,
    notes: &mut N,
) -> Status
    // Whatever a source of records tells, none are read.
    ensures { (records : SourceView) → Ends the_write name.now
        (outside (F.told shelf.old) records (K.told out.old) (N.told notes.old))
        (outside (F.told shelf.new) records (K.told out.new) (N.told notes.new)) result }
{
    match write_answer(alloc, name, shelf) {
        Ok(answer) => conclude(print_answer(&answer, out), notes),
        Err(fault) => give_up(fault, notes),
    }
}

/// Writes the plan of this name in the notation, or why it is refused. The statuses are the same.
fn show_text<F: Shelf, K: Sink, N: Sink>(
    alloc: Global,
    name: &str,
    shelf: &mut F,
    out: &mut K,
    notes: &mut N,
) -> Status
    // Whatever a source of records tells, none are read.
    ensures { (records : SourceView) → Ends the_text name.now
        (outside (F.told shelf.old) records (K.told out.old) (N.told notes.old))
        (outside (F.told shelf.new) records (K.told out.new) (N.told notes.new)) result }
{
    match text_answer(alloc, name, shelf) {
        Ok(answer) => conclude(print_answer(&answer, out), notes),
        Err(fault) => give_up(fault, notes),
    }
}

/// Does what is asked of a file.
fn show_file<F: Shelf, K: Sink, N: Sink>(
    alloc: Global,
    asked: Asked,
    shelf: &mut F,
    out: &mut K,
    notes: &mut N,
) -> Status
    // Whatever a source of records tells, none are read.
    ensures { (records : SourceView) → Ends (question_of asked.entry) (file_of asked.entry)
        (outside (F.told shelf.old) records (K.told out.old) (N.told notes.old))
        (outside (F.told shelf.new) records (K.told out.new) (N.told notes.new)) result }
{
    match asked {
        Asked::Plan { file } => show_plan(alloc, file, shelf, out, notes),
        Asked::Trace { file, rows } => show_trace(alloc, file, rows, shelf, out, notes),
        Asked::Why { file } => show_why(alloc, file, shelf, out, notes),
        Asked::Write { file } => show_write(alloc, file, shelf, out, notes),
        Asked::Text { file } => show_text(alloc, file, shelf, out, notes),
    }
}

/// The file of which something is asked.
fn file_of(asked: Asked<'_>) -> &str
    ensures { result.now ≡ file_of asked.entry }
{
    match asked {
        Asked::Plan { file }
        | Asked::Trace { file, rows: _ }
        | Asked::Why { file }
        | Asked::Write { file }
        | Asked::Text { file } => file,
    }
}

/// Does what is asked for, and names its file where it wasn't read.
fn show_asked<F: Shelf, K: Sink, N: Sink>(
    alloc: Global,
    asked: Asked,
    shelf: &mut F,
    out: &mut K,
    notes: &mut N,
) -> Status
    ensures { ShowEnds (F.told shelf.old) (F.told shelf.new) (K.told out.old) (K.told out.new)
        (N.told notes.old) (N.told notes.new) result asked.entry }
{
    let status = show_file(alloc, asked, shelf, out, notes);
    name_missing(status, file_of(asked), notes);
    status
}

/// Shows what the words ask for, and gives the status that this ends with.
pub fn show<F: Shelf, K: Sink, N: Sink>(
    alloc: Global,
    words: &[&str],
    shelf: &mut F,
    out: &mut K,
    notes: &mut N,
) -> Status
    // Words that ask for nothing are a fault of usage, and no others are: it is told how the
    // program is called, nothing is read, and nothing is done to out.
    ensures usage { (result ≡ Status.Usage) ↔ (asked_of words.now ≡ None) }
    ensures told { asked_of words.now ≡ None → UsageShown
        (F.told shelf.old) (F.told shelf.new) (K.told out.old) (K.told out.new)
        (N.told notes.old) (N.told notes.new) }

    // What is asked for is shown.
    ensures ends { IfSome (asked_of words.now) (ShowEnds
        (F.told shelf.old) (F.told shelf.new) (K.told out.old) (K.told out.new)
        (N.told notes.old) (N.told notes.new) result) }
{
    match read_words(words) {
        Some(asked) => show_asked(alloc, asked, shelf, out, notes),
        None => {
            refuse(show_usage_lines(), notes);
            Status::Usage
        }
    }
}
