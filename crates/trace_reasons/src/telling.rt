//! What is said of a trace.
ghost use Rattle.std.specs.Prelude.{◌≡◌, IfOk, OnOk};
ghost use Rattle.pictures.specs.Adding.{Adds};
ghost use Rattle.exec_life.specs.StateLists.{machine};
ghost use Rattle.replay_core.specs.Verdicts.{IsFirstRefused, AllTaken};
ghost use Rattle.trace_reasons.specs.Explaining.{Explains, entries_word, since_text, refused_text, taken_text};
ghost use Rattle.trace_reasons.specs.Since.{IsReason};

use crate::open::{put_marks, put_open};
use crate::places::own_place;
use crate::put::{put, put_between};
use crate::sentence::put_fact;
use crate::since::since;
use crate::walk::state_after;
use exec_life::State;
use replay_core::{Trace, Verdict, check_trace};
use std::alloc::{AllocError, Global};
use step_reasons::{Fact, reason_of};
use trace_text::{Entry, put_entry_text};

/// What is said of a trace.
#[derive(Drop)]
pub struct Explained {
    /// Whether each of its entries is a step.
    pub taken: bool,
    /// A line.
    pub text: Vec<u8>,
}

/// Says which entry of the trace is the first that is no step, why, and since when what keeps its
/// hand from it is so; or, where each is a step, how many there are and what is open after them.
pub fn explain(alloc: Global, trace: &Trace) -> Result<Explained, AllocError>
    ensures { IfOk result (λ explained.
        Explains trace.now explained.taken explained.text.items) }
{
    match check_trace(alloc, trace)? {
        Verdict::Taken(count) => taken(alloc, trace, count),
        Verdict::Refused(number) => refused(alloc, trace, number),
    }
}

// Says what is open after a trace of so many steps.
fn taken(alloc: Global, trace: &Trace, count: u32) -> Result<Explained, AllocError>
    requires { AllTaken trace.now count }
    ensures { IfOk result (λ explained.
        Explains trace.now explained.taken explained.text.items) }
{
    let state = state_after(alloc, trace, count)?;
    let taken = true;
    let text = taken_line(alloc, count, &state)?;
    Ok(Explained { taken, text })
}

fn entries_word(count: u32) -> &'static [u8]
    ensures { result.now ≡ entries_word count }
{
    if count == 1 {
        b" entry taken; "
    } else {
        b" entries taken; "
    }
}

// The line of a trace of so many steps, which lead to this state.
fn taken_line(alloc: Global, count: u32, state: &State) -> Result<Vec<u8>, AllocError>
    ensures { IfOk result (λ text. text.items ≡ taken_text count (machine state.now)) }
{
    let mut all = Vec::new(alloc);
    put_marks(state, &mut all)?;
    let mut text = Vec::new(alloc);
    put_between(b"", count, entries_word(count), &mut text)?;
    put_open(&all, &mut text)?;
    put(b"\n", &mut text)?;
    Ok(text)
}

// Says why this entry, from 1, is no step.
fn refused(alloc: Global, trace: &Trace, number: u32) -> Result<Explained, AllocError>
    requires { IsFirstRefused trace.now number }
    ensures { IfOk result (λ explained.
        Explains trace.now explained.taken explained.text.items) }
{
    // Each state along a trace is sound, by what its opening is.
    let _opening = trace.opening();
    let count = number - 1;
    let entry = &trace.entries()[count as usize];
    let state = state_after(alloc, trace, count)?;
    match reason_of(&state, entry.hand, &entry.event) {
        // A refused step has a reason.
        None => unreachable!(),
        Some(fact) => {
            let since = since(alloc, trace, count, &fact)?;
            let taken = false;
            let text = told(alloc, trace, number, entry, &fact, since)?;
            Ok(Explained { taken, text })
        }
    }
}

// The line of a refused entry.
fn told(
    alloc: Global,
    trace: &Trace,
    number: u32,
    entry: &Entry,
    fact: &Fact,
    since: u32,
) -> Result<Vec<u8>, AllocError>
    requires { IsReason trace.now number entry.now fact.now since }
    ensures { IfOk result (λ text.
        text.items ≡ refused_text trace.now number entry.now fact.now since) }
{
    let opening = trace.opening();
    let line = opening.tree().size() + 1 + number;
    let mut text = Vec::new(alloc);
    put_between(b"entry ", number, b", line ", &mut text)?;
    put_between(b"", line, b": ", &mut text)?;
    put_entry_text(entry, &mut text)?;
    put(b": ", &mut text)?;
    put_fact(own_place(&entry.event), fact, &mut text)?;
    put_since(since, &mut text)?;
    put(b"\n", &mut text)?;
    Ok(text)
}

// Adds since when a fact is so.
fn put_since(since: u32, out: &mut Vec<u8>) -> Result<(), AllocError>
    ensures { OnOk result (Adds out.old.items out.new.items (since_text since)) }
{
    if since == 0 {
        return Ok(());
    }
    put_between(b" since entry ", since, b"", out)
}
