//! Sentences that say where and why a text is refused.
ghost use Rattle.std.specs.Prelude.{◌≡◌, IfOk};
ghost use Rattle.notation_answers.specs.Answers.{TellsOfPlace, place_head, sentence_at};

use crate::found::{found_text, wanted_text};
use itoa::Buffer;
use plan_notation::{Refusal, Wanted};
use plan_words::{Place, Token, place_behind, tokens_of};
use std::alloc::{AllocError, Global};

/// A sentence about the place behind so many bytes, in a line of its own.
pub(crate) fn at_place(
    alloc: Global,
    text: &[u8],
    at: usize,
    reason: &str,
) -> Result<Vec<u8>, AllocError>
    ensures { IfOk result (λ told. told.items ≡ sentence_at text.now at reason.now) }
{
    let mut sentence = place_head(alloc, place_behind(text, at.min(text.len())))?;
    sentence.extend_from_slice(reason.as_bytes())?;
    sentence.push(b'\n')?;
    Ok(sentence)
}

/// Why a text is refused where its tokens are.
pub(crate) fn refusal_sentence(
    alloc: Global,
    text: &[u8],
    refusal: Refusal,
) -> Result<Vec<u8>, AllocError>
    ensures { IfOk result (λ told. TellsOfPlace text.now refusal.at told.items) }
{
    let reason = refusal_reason(alloc, text, refusal)?;
    let mut sentence = place_head(alloc, place_behind(text, refusal.at.min(text.len())))?;
    sentence.extend_from_slice(&reason)?;
    Ok(sentence)
}

/// What stands there, and what is wanted; a line feed ends both.
fn refusal_reason(alloc: Global, text: &[u8], refusal: Refusal) -> Result<Vec<u8>, AllocError> {
    if refusal.wanted == Wanted::Depth {
        return Vec::from_slice(alloc, b"the node stands more than 56 deep\n");
    }
    let tokens = tokens_of(alloc, text)?;
    let mut reason = found_text(alloc, refusal.wanted, token_at(&tokens, refusal.at))?;
    reason.extend_from_slice(b"; wanted ")?;
    reason.extend_from_slice(wanted_text(refusal.wanted).as_bytes())?;
    reason.push(b'\n')?;
    Ok(reason)
}

/// The token behind so many bytes.
fn token_at(tokens: &[Token], at: usize) -> Option<&Token> {
    for token in tokens {
        if token.at() == at {
            return Some(token);
        }
    }
    None
}

/// A line and a column, as a sentence begins.
fn place_head(alloc: Global, place: Place) -> Result<Vec<u8>, AllocError>
    ensures { IfOk result (λ text. text.items ≡ place_head place) }
{
    let mut line = Buffer::new();
    let mut column = Buffer::new();
    let mut text = Vec::from_slice(alloc, b"line ")?;
    text.extend_from_slice(line.format(place.line as u64).as_bytes())?;
    text.extend_from_slice(b", column ")?;
    text.extend_from_slice(column.format(place.column as u64).as_bytes())?;
    text.extend_from_slice(b": ")?;
    Ok(text)
}
