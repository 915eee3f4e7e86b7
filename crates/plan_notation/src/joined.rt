//! How pieces of JSON are put together.
ghost use Rattle.std.specs.Prelude.{◌≡◌, ◌++◌, IfOk, OnOk, map};
ghost use Rattle.plan_notation.specs.Assembled.{array_text, five, items_text, later_items_text, piece_at, quoted_word, three};

use std::alloc::{AllocError, Global};

/// A piece of JSON.
pub(crate) type Piece = Vec<u8>;

/// Two pieces, one after the other.
pub(crate) fn two(alloc: Global, first: &[u8], second: &[u8]) -> Result<Piece, AllocError>
    ensures { IfOk result (λ text. text.items ≡ first.now ++ second.now) }
{
    let mut text = Vec::from_slice(alloc, first)?;
    text.extend_from_slice(second)?;
    Ok(text)
}

/// Three pieces.
pub(crate) fn three(
    alloc: Global,
    first: &[u8],
    second: &[u8],
    third: &[u8],
) -> Result<Piece, AllocError>
    ensures { IfOk result (λ text. text.items ≡ three first.now second.now third.now) }
{
    let later = two(alloc, second, third)?;
    two(alloc, first, &later)
}

/// Five pieces.
pub(crate) fn five(
    alloc: Global,
    first: &[u8],
    second: &[u8],
    third: &[u8],
    fourth: &[u8],
    fifth: &[u8],
) -> Result<Piece, AllocError>
    ensures { IfOk result (λ text. text.items
        ≡ five first.now second.now third.now fourth.now fifth.now) }
{
    let later = three(alloc, third, fourth, fifth)?;
    three(alloc, first, second, &later)
}

/// A word in quotes.
pub(crate) fn quoted_word(alloc: Global, word: &[u8]) -> Result<Piece, AllocError>
    ensures { IfOk result (λ text. text.items ≡ quoted_word word.now) }
{
    three(alloc, b"\"", word, b"\"")
}

/// The piece of this number, or nothing.
pub(crate) fn piece_at(pieces: &[Piece], number: usize) -> &[u8]
    ensures { result.now ≡ piece_at (map (λ piece. piece.items) pieces.now) number }
{
    match pieces.get(number) {
        Some(piece) => piece,
        None => &[],
    }
}

/// These pieces, in an array.
pub(crate) fn array_text(alloc: Global, pieces: &[Piece]) -> Result<Piece, AllocError>
    ensures { IfOk result
        (λ text. text.items ≡ array_text (map (λ piece. piece.items) pieces.now)) }
{
    let mut text = Vec::from_slice(alloc, b"[")?;
    put_items(pieces, &mut text)?;
    text.push(b']')?;
    Ok(text)
}

/// Adds these pieces, with commas between them.
fn put_items(pieces: &[Piece], text: &mut Piece) -> Result<(), AllocError>
    ensures { OnOk result (text.new.items
        ≡ text.old.items ++ items_text (map (λ piece. piece.items) pieces.now)) }
{
    match pieces {
        [] => Ok(()),
        [first, later @ ..] => {
            text.extend_from_slice(first)?;
            put_later(later, text)
        }
    }
}

/// Adds these pieces, each behind a comma.
fn put_later(pieces: &[Piece], text: &mut Piece) -> Result<(), AllocError>
    ensures { OnOk result (text.new.items
        ≡ text.old.items ++ later_items_text (map (λ piece. piece.items) pieces.now)) }
{
    'pieces: for piece in pieces {
        text.push(b',')?;
        text.extend_from_slice(piece)?;
    }
    Ok(())
}
