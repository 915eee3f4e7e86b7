//! Why bytes are no plan, and where, in a sentence.
ghost use Rattle.std.specs.Prelude.{◌≡◌, ◌≢◌, IfOk};
ghost use Rattle.picture_commands.specs.Answers.{IsReasoned};
ghost use Rattle.picture_commands.specs.Reasons.{head_of, reason_line};
ghost use Rattle.plan_reader.specs.PlanFile.{IsFaultOf};

use plan_places::{Cause, Refusal, refusal_of};
use plan_reader::PlanFault;
use std::alloc::{AllocError, Global};

/// Why these bytes are no plan.
pub(crate) fn told(alloc: Global, bytes: &[u8], fault: PlanFault) -> Result<Vec<u8>, AllocError>
    requires cause { fault ≢ PlanFault.NoMemory }
    requires is { IsFaultOf bytes.now fault }
    ensures { IfOk result (λ text. IsReasoned bytes.now text.items) }
{
    let refusal = refusal_of(alloc, bytes, fault)?;
    reason_line(alloc, &refusal)
}

/// Why bytes are no plan, and where, in a sentence.
fn reason_line(alloc: Global, refusal: &Refusal) -> Result<Vec<u8>, AllocError>
    ensures { IfOk result
        (λ text. text.items ≡ reason_line refusal.now) }
{
    let mut text = Vec::from_slice(alloc, head_of(refusal.cause))?;
    text.extend_from_slice(&refusal.place)?;
    text.extend_from_slice(b": ")?;
    text.extend_from_slice(refusal.reason.as_bytes())?;
    text.extend_from_slice(b"\n")?;
    Ok(text)
}

/// The sentence as far as its place.
fn head_of(cause: Cause) -> &'static [u8]
    ensures { result.now ≡ head_of cause }
{
    match cause {
        Cause::TooLong => b"refused: P1 too long",
        Cause::NotJson => b"refused: P2 not JSON",
        Cause::Form => b"refused: P3 form",
        Cause::UnknownName => b"refused: P4 unknown name",
        Cause::Limit | Cause::Depth | Cause::Misplaced | Cause::Size => b"refused: P5 limit",
        Cause::OtherJob | Cause::Kinds => b"refused: P6 kinds",
        Cause::Excluded => b"refused: P7 settings exclude each other",
    }
}
