//! Why an entry of a trace is refused, or what is open at its end.
ghost use Rattle.std.specs.Prelude.{IfOk, IfErr};
ghost use Rattle.exec_status.specs.Files.{IsFaultOf, Misses, ReadsShelf};
ghost use Rattle.picture_commands.specs.Answers.{HasShown, IsShownAs, the_why};
ghost use Rattle.trace_commands.specs.Refusals.{HasRefusal};
ghost use Rattle.trace_reasons.specs.Explaining.{Explains};

use crate::answer::Answer;
use exec_io::Shelf;
use exec_status::FileFault;
use replay_core::read_trace;
use std::alloc::{AllocError, Global};
use trace_commands::{Refusal, file_fault, read_file};
use trace_reasons::explain;
use trace_text::Trace;

/// What is said of the trace of this name.
pub(crate) fn why_answer<F: Shelf>(
    alloc: Global,
    name: &str,
    shelf: &mut F,
) -> Result<Answer, FileFault<Refusal>>
    ensures reads { ReadsShelf name.now (F.told shelf.old) (F.told shelf.new) result }
    ensures answer { IfOk result (HasShown the_why (F.told shelf.old).texts name.now) }
    ensures fault { IfErr result
        (Misses (HasRefusal the_why (F.told shelf.old).texts name.now)) }
{
    match read_file(alloc, name, shelf) {
        Ok(bytes) => trace_explained(alloc, &bytes),
        Err(fault) => Err(fault),
    }
}

/// What is said of a trace file with these bytes.
fn trace_explained(alloc: Global, bytes: &[u8]) -> Result<Answer, FileFault<Refusal>>
    ensures answer { IfOk result (IsShownAs the_why bytes.now) }
    ensures fault { IfErr result (IsFaultOf (the_why.refuses bytes.now)) }
{
    match read_trace(alloc, bytes) {
        Ok(trace) => match explained(alloc, &trace) {
            Ok(answer) => Ok(answer),
            Err(AllocError) => Err(FileFault::NoMemory),
        },
        Err(fault) => Err(file_fault(fault)),
    }
}

/// What is said of a trace.
fn explained(alloc: Global, trace: &Trace) -> Result<Answer, AllocError>
    ensures { IfOk result (λ answer. Explains trace.now answer.drawn answer.text.items) }
{
    let explained = explain(alloc, trace)?;
    Ok(Answer {
        drawn: explained.taken,
        text: explained.text,
    })
}
