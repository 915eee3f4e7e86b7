//! `check FILE`: whether a trace is one of the pure machine.
ghost use Rattle.std.specs.Prelude.{◌≤◌, IfOk, IfErr};
ghost use Rattle.exec_io.specs.Outside.{outside};
ghost use Rattle.exec_io.specs.Views.{SourceView};
ghost use Rattle.exec_status.specs.Files.{IsFaultOf, Misses, ReadsShelf};
ghost use Rattle.trace_commands.specs.Answers.{IsVerdictOn, HasVerdict, Prints, verdict_status, verdict_text, the_check};
ghost use Rattle.trace_commands.specs.Ends.{Ends};
ghost use Rattle.trace_commands.specs.Refusals.{HasRefusal};

use crate::file::{Refusal, file_fault, give_up, read_file};
use exec_io::{Failed, Shelf, Sink};
use exec_status::{FileFault, Status, conclude, tell_numbered};
use replay_core::{Verdict, check_trace, read_trace};
use std::alloc::{AllocError, Global};

/// Says of the trace of this name whether each of its entries is a step of the pure machine: `ok`
/// and their number, or `refused` and the number of the first that is none, from 1.
///
/// The status is `AllValues` or `NotAllValues` with that line; `PlanRefused` where the file is no
/// trace; `NoMemory`; `ReadFault` where the shelf failed; and `WriteFault` where out or notes
/// failed.
pub fn check_file<F: Shelf, K: Sink, N: Sink>(
    alloc: Global,
    name: &str,
    shelf: &mut F,
    out: &mut K,
    notes: &mut N,
) -> Status
    // Whatever a source of records tells, none are read.
    ensures { (records : SourceView) → Ends the_check name.now
        (outside (F.told shelf.old) records (K.told out.old) (N.told notes.old))
        (outside (F.told shelf.new) records (K.told out.new) (N.told notes.new)) result }
{
    match judge(alloc, name, shelf) {
        Ok(verdict) => conclude(print_verdict(verdict, out), notes),
        Err(fault) => give_up(fault, notes),
    }
}

// What the check says of the file of this name.
fn judge<F: Shelf>(alloc: Global, name: &str, shelf: &mut F) -> Result<Verdict, FileFault<Refusal>>
    ensures reads { ReadsShelf name.now (F.told shelf.old) (F.told shelf.new) result }
    ensures answer { IfOk result (HasVerdict (F.told shelf.old).texts name.now) }
    ensures fault { IfErr result (Misses (HasRefusal the_check (F.told shelf.old).texts name.now)) }
{
    match read_file(alloc, name, shelf) {
        Ok(bytes) => judge_bytes(alloc, &bytes),
        Err(fault) => Err(fault),
    }
}

// What the check says of a file with these bytes.
fn judge_bytes(alloc: Global, bytes: &[u8]) -> Result<Verdict, FileFault<Refusal>>
    ensures answer { IfOk result (IsVerdictOn bytes.now) }
    ensures fault { IfErr result (IsFaultOf (the_check.refuses bytes.now)) }
{
    match read_trace(alloc, bytes) {
        Ok(trace) => match check_trace(alloc, &trace) {
            Ok(verdict) => Ok(verdict),
            Err(AllocError) => Err(FileFault::NoMemory),
        },
        Err(fault) => Err(file_fault(fault)),
    }
}

// Writes the line of a verdict, and gives the status that stands then.
fn print_verdict<K: Sink>(verdict: Verdict, out: &mut K) -> Status
    ensures later { (K.told out.old).faults ≤ (K.told out.new).faults }
    ensures prints { Prints (verdict_status verdict) (verdict_text verdict)
        (K.told out.old) (K.told out.new) result }
{
    match verdict {
        Verdict::Taken(count) => match tell_numbered(b"ok ", count, out) {
            Ok(()) => Status::AllValues,
            Err(Failed) => Status::WriteFault,
        },
        Verdict::Refused(entry) => match tell_numbered(b"refused ", entry, out) {
            Ok(()) => Status::NotAllValues,
            Err(Failed) => Status::WriteFault,
        },
    }
}
