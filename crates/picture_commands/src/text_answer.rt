//! What is answered of a plan file whose plan is wanted in the notation.
ghost use Rattle.std.specs.Prelude.{IfOk, IfErr};
ghost use Rattle.exec_status.specs.Files.{IsFaultOf as IsFileFault, Misses, ReadsShelf};
ghost use Rattle.picture_commands.specs.Answers.{HasShown, IsShownAs, the_text};
ghost use Rattle.trace_commands.specs.Refusals.{HasRefusal};

use crate::answer::Answer;
use crate::reason::told;
use exec_io::Shelf;
use exec_status::FileFault;
use notation_answers::text_of;
use plan_reader::{PlanFault, read_plan};
use std::alloc::{AllocError, Global};
use trace_commands::{Refusal, read_file};

/// What is answered of the plan of this name.
pub(crate) fn text_answer<F: Shelf>(
    alloc: Global,
    name: &str,
    shelf: &mut F,
) -> Result<Answer, FileFault<Refusal>>
    ensures reads { ReadsShelf name.now (F.told shelf.old) (F.told shelf.new) result }
    ensures answer { IfOk result (HasShown the_text (F.told shelf.old).texts name.now) }
    ensures fault { IfErr result
        (Misses (HasRefusal the_text (F.told shelf.old).texts name.now)) }
{
    match read_file(alloc, name, shelf) {
        Ok(bytes) => plan_noted(alloc, &bytes),
        Err(fault) => Err(fault),
    }
}

/// What is answered of a plan file with these bytes.
fn plan_noted(alloc: Global, bytes: &[u8]) -> Result<Answer, FileFault<Refusal>>
    ensures answer { IfOk result (IsShownAs the_text bytes.now) }
    ensures fault { IfErr result (IsFileFault (the_text.refuses bytes.now)) }
{
    match noted_or_told(alloc, bytes) {
        Ok(answer) => Ok(answer),
        Err(AllocError) => Err(FileFault::NoMemory),
    }
}

/// The plan of these bytes in the notation, or why they are none.
fn noted_or_told(alloc: Global, bytes: &[u8]) -> Result<Answer, AllocError>
    ensures { IfOk result (IsShownAs the_text bytes.now) }
{
    match read_plan(alloc, bytes) {
        Ok(plan) => Ok(Answer {
            drawn: true,
            text: text_of(alloc, &plan)?,
        }),
        Err(PlanFault::NoMemory) => Err(AllocError),
        Err(fault) => Ok(Answer {
            drawn: false,
            text: told(alloc, bytes, fault)?,
        }),
    }
}
