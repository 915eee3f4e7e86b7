//! How a line is read as a record.
ghost use Rattle.std.specs.Prelude.{◌≡◌, ◌≢◌, ◌≤◌, length, vec_len, IfOk, OnOk};
ghost use Rattle.std.specs.Option.{option_copied};
ghost use Rattle.exec_value.specs.Record.{bracketed, row_numbers, row_of, with_number, record_of};

use crate::data::Datum;
use crate::fault::RecordFault;
use crate::kinds::Kind;
use crate::limits::{INLINE_BYTES, NUMBERS};
use crate::number::read_int;
use crate::nums::Nums;
use crate::txt::Txt;
use std::alloc::{AllocError, Global};

/// The datum that a line shows as a record of this kind. No line is a record of a maybe kind.
///
/// An int, and a text of at most 22 bytes, want no memory.
pub fn read_record(alloc: Global, kind: Kind, line: &[u8]) -> Result<Datum, RecordFault>
    ensures ok { IfOk result (λ datum. record_of kind line.now ≡ Some datum) }
    ensures bad { result ≡ Err RecordFault.Bad → record_of kind line.now ≡ None }
    ensures int { kind ≡ Kind.Int → result ≢ Err RecordFault.NoMemory }
    ensures short_text { kind ≡ Kind.Text → length line.now ≤ INLINE_BYTES
        → result ≢ Err RecordFault.NoMemory }
{
    match kind {
        Kind::Int => match read_int(line) {
            Some(number) => Ok(Datum::Int(number)),
            None => Err(RecordFault::Bad),
        },
        Kind::Text => Ok(Datum::Text(Txt::from_bytes(alloc, line)?)),
        Kind::Row => Ok(Datum::Row(read_row(alloc, line)?)),
        Kind::MaybeInt | Kind::MaybeText => Err(RecordFault::Bad),
    }
}

/// The numbers of a row record: `[`, at most 4,096 numbers as an int record shows them with `,`
/// between them, and `]`.
fn read_row(alloc: Global, line: &[u8]) -> Result<Nums, RecordFault>
    ensures ok { IfOk result (λ row. row_of line.now ≡ Some row) }
    ensures bad { result ≡ Err RecordFault.Bad → row_of line.now ≡ None }
{
    match bracketed(line) {
        Some(inner) => Ok(Nums::from_vec(read_numbers(alloc, inner)?)?),
        None => Err(RecordFault::Bad),
    }
}

/// What stands between the brackets that a line begins and ends with.
fn bracketed(line: &[u8]) -> Option<&[u8]>
    ensures { option_copied result ≡ bracketed line.now }
{
    match line {
        [b'[', inner @ .., b']'] => Some(inner),
        _ => None,
    }
}

/// The numbers of a row record from what stands between its brackets.
fn read_numbers(alloc: Global, inner: &[u8]) -> Result<Vec<i64>, RecordFault>
    ensures ok { IfOk result (λ numbers. row_numbers inner.now ≡ Some numbers.items) }
    ensures few { IfOk result (λ numbers. vec_len numbers ≤ NUMBERS) }
    ensures bad { result ≡ Err RecordFault.Bad → row_numbers inner.now ≡ None }
{
    let mut numbers = Vec::new(alloc);
    if inner.is_empty() {
        return Ok(numbers);
    }
    for part in inner.split(|byte| *byte == b',') {
        push_number(&mut numbers, part)?;
    }
    Ok(numbers)
}

/// Appends the number of a part.
fn push_number(numbers: &mut Vec<i64>, part: &[u8]) -> Result<(), RecordFault>
    ensures ok { OnOk result (with_number numbers.old.items part.now ≡ Some numbers.new.items) }
    ensures bad { result ≡ Err RecordFault.Bad
        → with_number numbers.old.items part.now ≡ None }
{
    let number = read_int(part).ok_or(RecordFault::Bad)?;
    if numbers.len() >= NUMBERS {
        return Err(RecordFault::Bad);
    }
    numbers.push(number).map_err(AllocError::from)?;
    Ok(())
}
