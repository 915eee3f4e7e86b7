//! How a trace or a schedule is read, line by line.
ghost use Rattle.std.specs.Prelude.{◌≡◌, ◌↔◌, ◌≤◌, ◌<◌, ◌+◌, ℕ, [], Err, Ok, IfOk, OnOk, MatchResult, length};
ghost use Rattle.trace_text.specs.declared.limits.TheConstants.{FILE_BYTES, ENTRIES};
ghost use Rattle.trace_text.specs.Reading.{trace_in, schedule_in, entries_of, lines_in, IsFaultOf};

use crate::cut::cut_at;
use crate::fault::TraceFault;
use crate::limits::{ENTRIES, FILE_BYTES};
use crate::on_line::OnLine;
use crate::opening::Opening;
use crate::read_opening::{Lines, read_opening};
use crate::schedule::Schedule;
use crate::trace::Trace;
use std::alloc::Global;

/// The trace that a text is of.
pub fn read_trace(alloc: Global, bytes: &[u8]) -> Result<Trace, TraceFault>
    ensures ok { IfOk result (λ trace. trace_in bytes.now ≡ Ok trace) }
    ensures short { OnOk result (length bytes.now ≤ FILE_BYTES) }
    ensures too_long { (result ≡ Err TraceFault.TooLong) ↔ (FILE_BYTES < length bytes.now) }
    ensures line { (n : ℕ) → result ≡ Err (TraceFault.Line n)
        → trace_in bytes.now ≡ Err n }
{
    if bytes.len() > FILE_BYTES {
        return Err(TraceFault::TooLong);
    }
    read_whole_trace(alloc, bytes)
}

/// The schedule that a text is of.
pub fn read_schedule(alloc: Global, bytes: &[u8]) -> Result<Schedule, TraceFault>
    ensures ok { IfOk result (λ schedule. schedule_in bytes.now ≡ Ok schedule) }
    ensures short { OnOk result (length bytes.now ≤ FILE_BYTES) }
    ensures too_long { (result ≡ Err TraceFault.TooLong) ↔ (FILE_BYTES < length bytes.now) }
    ensures line { (n : ℕ) → result ≡ Err (TraceFault.Line n)
        → schedule_in bytes.now ≡ Err n }
{
    if bytes.len() > FILE_BYTES {
        return Err(TraceFault::TooLong);
    }
    read_whole_schedule(alloc, bytes)
}

// The trace that a text of any length is of.
fn read_whole_trace(alloc: Global, bytes: &[u8]) -> Result<Trace, TraceFault>
    ensures { MatchResult result (λ trace. trace_in bytes.now ≡ Ok trace)
        (IsFaultOf (trace_in bytes.now)) }
{
    let mut lines = Lines { rest: bytes };
    match read_opening(alloc, &mut lines) {
        Err(fault) => Err(fault),
        Ok(opening) => match read_all(alloc, &opening, lines.rest) {
            Err(fault) => Err(fault),
            Ok(entries) => Ok(Trace::new(opening, entries)),
        },
    }
}

// The schedule that a text of any length is of.
fn read_whole_schedule(alloc: Global, bytes: &[u8]) -> Result<Schedule, TraceFault>
    ensures { MatchResult result (λ schedule. schedule_in bytes.now ≡ Ok schedule)
        (IsFaultOf (schedule_in bytes.now)) }
{
    let mut lines = Lines { rest: bytes };
    match read_opening(alloc, &mut lines) {
        Err(fault) => Err(fault),
        Ok(opening) => match read_all(alloc, &opening, lines.rest) {
            Err(fault) => Err(fault),
            Ok(entries) => Ok(Schedule::new(opening, entries)),
        },
    }
}

// What lines say, all of them.
fn read_all<T: OnLine>(alloc: Global, opening: &Opening, bytes: &[u8]) -> Result<Vec<T>, TraceFault>
    ensures read { let l = lines_in bytes.now in
        let read = entries_of (T.said_on opening.now) (length opening.now.nodes + 2)
        l.ended l.rest [] in
        MatchResult result (λ items. read ≡ Ok items.items) (IsFaultOf read) }
    ensures few { IfOk result (λ items. length items.items ≤ ENTRIES) }
{
    let base = opening.tree().size() + 2;
    let mut items = Vec::new(alloc);
    let mut rest = bytes;
    while !rest.is_empty() {
        let number = base + items.len() as u32;
        let Some(cut) = cut_at(rest, b'\n') else {
            return Err(TraceFault::Line(number));
        };
        if items.len() == ENTRIES {
            return Err(TraceFault::Line(number));
        }
        let Ok(read) = T::parse(alloc, opening, cut.front) else {
            return Err(TraceFault::NoMemory);
        };
        let Some(item) = read else {
            return Err(TraceFault::Line(number));
        };
        let Ok(()) = items.push(item) else {
            return Err(TraceFault::NoMemory);
        };
        rest = cut.rest;
    }
    Ok(items)
}
