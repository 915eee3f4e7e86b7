//! What is answered of a plan file.
ghost use Rattle.std.specs.Prelude.{IfOk, IfErr};
ghost use Rattle.exec_status.specs.Files.{IsFaultOf as IsFileFault, Misses, ReadsShelf};
ghost use Rattle.plan_kinds.specs.Reached.{KindsMatch};
ghost use Rattle.sig_check.specs.Checked.{AreSignatures};
ghost use Rattle.picture_commands.specs.Answers.{HasShown, IsShownAs, IsDrawingOf, the_plan};
ghost use Rattle.trace_commands.specs.Refusals.{HasRefusal};

use crate::answer::Answer;
use crate::reason::told;
use exec_io::Shelf;
use exec_status::FileFault;
use pictures::plans::picture_of;
use plan_reader::{PlanFault, read_plan};
use plan_shape::Plan;
use sig_check::{SigFault, Sigs, check};
use std::alloc::{AllocError, Global};
use trace_commands::{Refusal, read_file};

/// What is answered of the plan of this name.
pub(crate) fn plan_answer<F: Shelf>(
    alloc: Global,
    name: &str,
    shelf: &mut F,
) -> Result<Answer, FileFault<Refusal>>
    ensures reads { ReadsShelf name.now (F.told shelf.old) (F.told shelf.new) result }
    ensures answer { IfOk result (HasShown the_plan (F.told shelf.old).texts name.now) }
    ensures fault { IfErr result
        (Misses (HasRefusal the_plan (F.told shelf.old).texts name.now)) }
{
    match read_file(alloc, name, shelf) {
        Ok(bytes) => plan_drawn(alloc, &bytes),
        Err(fault) => Err(fault),
    }
}

/// What is answered of a plan file with these bytes.
fn plan_drawn(alloc: Global, bytes: &[u8]) -> Result<Answer, FileFault<Refusal>>
    ensures answer { IfOk result (IsShownAs the_plan bytes.now) }
    ensures fault { IfErr result (IsFileFault (the_plan.refuses bytes.now)) }
{
    match drawn_or_told(alloc, bytes) {
        Ok(answer) => Ok(answer),
        Err(AllocError) => Err(FileFault::NoMemory),
    }
}

/// The picture of the plan of these bytes, or why they are none.
fn drawn_or_told(alloc: Global, bytes: &[u8]) -> Result<Answer, AllocError>
    ensures { IfOk result (IsShownAs the_plan bytes.now) }
{
    match read_plan(alloc, bytes) {
        Ok(plan) => Ok(Answer {
            drawn: true,
            text: drawing_of(alloc, &plan)?,
        }),
        Err(PlanFault::NoMemory) => Err(AllocError),
        Err(fault) => Ok(Answer {
            drawn: false,
            text: told(alloc, bytes, fault)?,
        }),
    }
}

/// The picture of a plan.
fn drawing_of(alloc: Global, plan: &Plan) -> Result<Vec<u8>, AllocError>
    requires { KindsMatch plan.now.nodes plan.now.settings.input }
    ensures { IfOk result (λ text. IsDrawingOf plan.now text.items) }
{
    let sigs = sigs_of(alloc, plan)?;
    picture_of(alloc, plan, &sigs)
}

/// The signatures of a plan's nodes.
fn sigs_of(alloc: Global, plan: &Plan) -> Result<Sigs, AllocError>
    requires { KindsMatch plan.now.nodes plan.now.settings.input }
    ensures { IfOk result (AreSignatures plan.now) }
{
    match check(alloc, plan) {
        Ok(sigs) => Ok(sigs),
        Err(SigFault::NoMemory) => Err(AllocError),
        // The kinds of the plan match.
        Err(SigFault::Kinds(_)) => unreachable!(),
    }
}
