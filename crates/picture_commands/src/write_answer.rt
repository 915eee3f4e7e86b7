//! What is answered of a text in the notation.
ghost use Rattle.std.specs.Prelude.{◌≡◌, IfOk, IfErr};
ghost use Rattle.exec_status.specs.Files.{IsFaultOf, Misses, ReadsShelf};
ghost use Rattle.picture_commands.specs.Answers.{HasShown, IsShownAs, the_write};
ghost use Rattle.trace_commands.specs.Refusals.{HasRefusal};

use crate::answer::Answer;
use exec_io::Shelf;
use exec_status::FileFault;
use notation_answers::{Written, written_of};
use std::alloc::{AllocError, Global};
use trace_commands::{Refusal, read_file};

/// What is answered of the text of this name.
pub(crate) fn write_answer<F: Shelf>(
    alloc: Global,
    name: &str,
    shelf: &mut F,
) -> Result<Answer, FileFault<Refusal>>
    ensures reads { ReadsShelf name.now (F.told shelf.old) (F.told shelf.new) result }
    ensures answer { IfOk result (HasShown the_write (F.told shelf.old).texts name.now) }
    ensures fault { IfErr result
        (Misses (HasRefusal the_write (F.told shelf.old).texts name.now)) }
{
    match read_file(alloc, name, shelf) {
        Ok(bytes) => text_read(alloc, &bytes),
        Err(fault) => Err(fault),
    }
}

/// What is answered of a text with these bytes.
fn text_read(alloc: Global, bytes: &[u8]) -> Result<Answer, FileFault<Refusal>>
    ensures answer { IfOk result (IsShownAs the_write bytes.now) }
    ensures fault { IfErr result (IsFaultOf (the_write.refuses bytes.now)) }
{
    match written_of(alloc, bytes) {
        Ok(written) => Ok(answer_of(written)),
        Err(AllocError) => Err(FileFault::NoMemory),
    }
}

/// A plan as JSON is an answer as a picture is, and a sentence as a refusal is.
fn answer_of(written: Written) -> Answer
    ensures drawn { result.drawn ≡ written.is_plan }
    ensures text { result.text.items ≡ written.text.items }
{
    Answer {
        drawn: written.is_plan,
        text: written.text,
    }
}
