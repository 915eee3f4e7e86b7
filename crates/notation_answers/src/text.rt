//! How a plan is written in the notation.
ghost use Rattle.std.specs.Prelude.{IfOk};
ghost use Rattle.notation_answers.specs.Answers.{IsTextOf};

use plan_notation::notation_of;
use plan_shape::Plan;
use std::alloc::{AllocError, Global};

/// The plan in the notation, in lines of at most 100 columns. The text is read back: it is one of
/// the same plan.
pub fn text_of(alloc: Global, plan: &Plan) -> Result<Vec<u8>, AllocError>
    ensures { IfOk result (λ text. IsTextOf plan.now text.items) }
{
    let text = notation_of(alloc, plan)?;
    Ok(text)
}
