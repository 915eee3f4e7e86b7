//! Jobs that make texts.
ghost use Rattle.std.specs.Prelude.{◌≡◌, ◌≤◌, ◌∷◌, ◌++◌, [], length, codes, Ok, Err};
ghost use Rattle.std.specs.Fmt.{signed_decimal};
ghost use Rattle.std.specs.List.{flat_map};
ghost use Rattle.exec_value.specs.declared.limits.TheConstants.{DATA};
ghost use Rattle.exec_job.specs.Answer.{Gives, text_answer, ending};
ghost use Rattle.exec_job.specs.Apply.{bytes_of};

use exec_value::{Completion, Data, Datum, TEXT_BYTES, Txt};
use itoa::Buffer;
use std::alloc::{AllocError, Global};

/// A text and then another.
pub(crate) fn append(alloc: Global, text: &Txt, more: &Txt) -> Result<Completion, AllocError>
    ensures { Gives (text_answer (text.now ++ more.now)) result }
{
    if text.as_bytes().len() + more.as_bytes().len() > TEXT_BYTES {
        return Ok(too_long(alloc));
    }
    let mut joined = text.clone()?;
    joined.append(more)?;
    Ok(text_ending(alloc, joined))
}

/// The texts one after the other.
pub(crate) fn join(alloc: Global, operands: &[Datum]) -> Result<Completion, AllocError>
    requires { length operands.now ≤ DATA }
    ensures { Gives (text_answer (flat_map bytes_of operands.now)) result }
{
    if joined_len(operands) > TEXT_BYTES {
        return Ok(too_long(alloc));
    }
    let mut joined = Txt::empty(alloc);
    for datum in operands {
        if let Datum::Text(text) = datum {
            joined.append(text)?;
        }
    }
    Ok(text_ending(alloc, joined))
}

/// How many bytes the texts have together.
fn joined_len(operands: &[Datum]) -> usize
    requires { length operands.now ≤ DATA }
    ensures { result ≡ length (flat_map bytes_of operands.now) }
{
    let mut len = 0;
    for datum in operands {
        if let Datum::Text(text) = datum {
            len += text.as_bytes().len();
        }
    }
    len
}

/// The number in decimal. It takes no memory.
pub(crate) fn show(alloc: Global, x: i64) -> Completion
    ensures { result ≡ ending (Ok (Datum.Text (signed_decimal x) ∷ [])) }
{
    let mut buffer = Buffer::new();
    text_ending(alloc, Txt::short(alloc, buffer.format(x)))
}

/// The value of one text. It takes no memory.
fn text_ending(alloc: Global, text: Txt) -> Completion
    ensures { result ≡ ending (Ok (Datum.Text text ∷ [])) }
{
    Completion::Value(Data::one(alloc, Datum::Text(text)))
}

/// The error of a text that would be too long. It takes no memory.
fn too_long(alloc: Global) -> Completion
    ensures { result ≡ ending (Err (codes "too-long")) }
{
    Completion::error(Txt::short(alloc, "too-long"))
}
