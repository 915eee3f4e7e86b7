//! `replay FILE`: the trace of a schedule.
ghost use Rattle.std.specs.Prelude.{◌≡◌, ◌≤◌, IfOk, IfErr};
ghost use Rattle.exec_io.specs.Outside.{outside};
ghost use Rattle.exec_io.specs.Views.{SourceView};
ghost use Rattle.exec_status.specs.declared.status.Status.TheVariants.{AllValues};
ghost use Rattle.exec_status.specs.Files.{IsFaultOf, Misses, ReadsShelf};
ghost use Rattle.trace_commands.specs.Answers.{IsReplayed, HasTrace, Prints, the_replay};
ghost use Rattle.trace_commands.specs.Ends.{Ends};
ghost use Rattle.trace_commands.specs.Refusals.{HasRefusal};
ghost use Rattle.trace_text.specs.Texts.{trace_text};
ghost use Rattle.replay_core.specs.Replays.{trace_of};

use crate::file::{Refusal, file_fault, give_up, read_file};
use exec_io::{Failed, Shelf, Sink};
use exec_status::{FileFault, Status, conclude, tell};
use replay_core::{Schedule, read_schedule, replay, write_trace};
use std::alloc::{AllocError, Global};

/// Writes the text of the trace that the schedule of this name leads to.
///
/// The status is `AllValues` with that text; `PlanRefused` where the file is no schedule;
/// `NoMemory`; `ReadFault` where the shelf failed; and `WriteFault` where out or notes failed.
pub fn replay_file<F: Shelf, K: Sink, N: Sink>(
    alloc: Global,
    name: &str,
    shelf: &mut F,
    out: &mut K,
    notes: &mut N,
) -> Status
    // Whatever a source of records tells, none are read.
    ensures { (records : SourceView) → Ends the_replay name.now
        (outside (F.told shelf.old) records (K.told out.old) (N.told notes.old))
        (outside (F.told shelf.new) records (K.told out.new) (N.told notes.new)) result }
{
    match play(alloc, name, shelf) {
        Ok(text) => conclude(print_text(&text, out), notes),
        Err(fault) => give_up(fault, notes),
    }
}

// The text of the trace that the file of this name leads to.
fn play<F: Shelf>(alloc: Global, name: &str, shelf: &mut F) -> Result<Vec<u8>, FileFault<Refusal>>
    ensures reads { ReadsShelf name.now (F.told shelf.old) (F.told shelf.new) result }
    ensures answer { IfOk result (λ text. HasTrace (F.told shelf.old).texts name.now text.items) }
    ensures fault { IfErr result
        (Misses (HasRefusal the_replay (F.told shelf.old).texts name.now)) }
{
    match read_file(alloc, name, shelf) {
        Ok(bytes) => play_bytes(alloc, &bytes),
        Err(fault) => Err(fault),
    }
}

// The text of the trace that a file with these bytes leads to.
fn play_bytes(alloc: Global, bytes: &[u8]) -> Result<Vec<u8>, FileFault<Refusal>>
    ensures answer { IfOk result (λ text. IsReplayed bytes.now AllValues text.items) }
    ensures fault { IfErr result (IsFaultOf (the_replay.refuses bytes.now)) }
{
    match read_schedule(alloc, bytes) {
        Ok(schedule) => match text_of(alloc, &schedule) {
            Ok(text) => Ok(text),
            Err(AllocError) => Err(FileFault::NoMemory),
        },
        Err(fault) => Err(file_fault(fault)),
    }
}

// The text of the trace of a schedule.
fn text_of(alloc: Global, schedule: &Schedule) -> Result<Vec<u8>, AllocError>
    ensures { IfOk result (λ text. text.items ≡ trace_text (trace_of schedule.now)) }
{
    let trace = replay(alloc, schedule)?;
    write_trace(alloc, &trace)
}

// Writes a text, and gives the status that stands then.
fn print_text<K: Sink>(text: &[u8], out: &mut K) -> Status
    ensures later { (K.told out.old).faults ≤ (K.told out.new).faults }
    ensures prints { Prints AllValues text.now
        (K.told out.old) (K.told out.new) result }
{
    match tell(text, out) {
        Ok(()) => Status::AllValues,
        Err(Failed) => Status::WriteFault,
    }
}
