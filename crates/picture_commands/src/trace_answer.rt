//! What is answered of a trace file.
ghost use Rattle.std.specs.Prelude.{◌≡◌, true, IfOk, IfErr};
ghost use Rattle.exec_status.specs.Files.{IsFaultOf, Misses, ReadsShelf};
ghost use Rattle.picture_commands.specs.Answers.{HasShown, IsPictureOf, IsShownAs, shown_for, the_trace};
ghost use Rattle.trace_commands.specs.Refusals.{HasRefusal};

use crate::answer::Answer;
use exec_io::Shelf;
use exec_status::FileFault;
use pictures::traces::{Shown, picture_of};
use replay_core::{Verdict, check_trace, read_trace};
use show_words::Rows;
use std::alloc::{AllocError, Global};
use trace_commands::{Refusal, file_fault, read_file};
use trace_text::Trace;

/// What is answered of the trace of this name.
pub(crate) fn trace_answer<F: Shelf>(
    alloc: Global,
    name: &str,
    rows: Rows,
    shelf: &mut F,
) -> Result<Answer, FileFault<Refusal>>
    ensures reads { ReadsShelf name.now (F.told shelf.old) (F.told shelf.new) result }
    ensures answer { IfOk result (HasShown (the_trace rows) (F.told shelf.old).texts name.now) }
    ensures fault { IfErr result
        (Misses (HasRefusal (the_trace rows) (F.told shelf.old).texts name.now)) }
{
    match read_file(alloc, name, shelf) {
        Ok(bytes) => trace_drawn(alloc, &bytes, rows),
        Err(fault) => Err(fault),
    }
}

/// What is answered of a trace file with these bytes.
fn trace_drawn(alloc: Global, bytes: &[u8], rows: Rows) -> Result<Answer, FileFault<Refusal>>
    ensures answer { IfOk result (IsShownAs (the_trace rows) bytes.now) }
    ensures fault { IfErr result (IsFaultOf ((the_trace rows).refuses bytes.now)) }
{
    match read_trace(alloc, bytes) {
        Ok(trace) => match drawing_of(alloc, &trace, rows) {
            Ok(answer) => Ok(answer),
            Err(AllocError) => Err(FileFault::NoMemory),
        },
        Err(fault) => Err(file_fault(fault)),
    }
}

/// The picture of these rows of a trace.
fn drawing_of(alloc: Global, trace: &Trace, rows: Rows) -> Result<Answer, AllocError>
    ensures drawn { IfOk result (λ answer. answer.drawn ≡ true) }
    ensures text { IfOk result (λ answer. IsPictureOf trace.now rows answer.text.items) }
{
    let verdict = check_trace(alloc, trace)?;
    Ok(Answer {
        drawn: true,
        text: picture_of(alloc, trace, shown_for(rows, verdict))?,
    })
}

/// What a picture shows: these rows, and where it is asked for the mark of a refused entry.
fn shown_for(rows: Rows, verdict: Verdict) -> Shown
    ensures { result ≡ shown_for rows verdict }
{
    let refused = match verdict {
        Verdict::Refused(entry) if rows.refused => Some(entry),
        Verdict::Refused(_) | Verdict::Taken(_) => None,
    };
    Shown {
        first: rows.first,
        last: rows.last,
        refused,
    }
}
