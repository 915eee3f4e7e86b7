//! Arguments that are one token.
ghost use Rattle.std.specs.Prelude.{◌≡◌, IfOk, MatchResult, Ok};
ghost use Rattle.plan_notation.specs.Arguments.{IsTokenFault, argument_text, constant_text, is_kind, token_name, same_kind, word_json, word_text};

use crate::constant::{constant_kind, fits};
use crate::grammar::{is_one_of, wanted_words};
use crate::joined::{Piece, quoted_word};
use crate::wanted::{Fault, Wanted, refused};
use plan_words::{Token, TokenKind, token_kind};
use std::alloc::{AllocError, Global};

/// Whether a token is of this kind.
pub(crate) fn is_kind(token: &Token, kind: TokenKind) -> bool
    ensures { result ≡ is_kind token.now kind }
{
    same_kind(token_kind(token.text()), kind)
}

/// Whether both are one kind.
fn same_kind(kind: TokenKind, other: TokenKind) -> bool
    ensures { result ≡ same_kind kind other }
{
    match kind {
        TokenKind::Word => matches!(other, TokenKind::Word),
        TokenKind::Constant => matches!(other, TokenKind::Constant),
        TokenKind::Bar => matches!(other, TokenKind::Bar),
        TokenKind::Open => matches!(other, TokenKind::Open),
        TokenKind::Close => matches!(other, TokenKind::Close),
        TokenKind::Comma => matches!(other, TokenKind::Comma),
    }
}

/// The name that a token is; one that is no UTF-8 is the empty name, which nothing has.
pub(crate) fn token_name(token: &Token) -> &str
    ensures { result.now ≡ token_name token.now.text }
{
    match str::from_utf8(token.text()) {
        Ok(name) => name,
        Err(_) => "",
    }
}

/// The JSON of a token where this is wanted.
pub(crate) fn argument_text(alloc: Global, wanted: Wanted, token: &Token) -> Result<Piece, Fault>
    ensures { MatchResult result (λ text. argument_text wanted token.now ≡ Ok text.items)
        (IsTokenFault (argument_text wanted token.now)) }
{
    match wanted {
        Wanted::Number | Wanted::Text | Wanted::Scalar | Wanted::Constant => {
            constant_text(alloc, wanted, token)
        }
        wanted => word_text(alloc, wanted, token),
    }
}

/// A constant as it stands.
fn constant_text(alloc: Global, wanted: Wanted, token: &Token) -> Result<Piece, Fault>
    ensures { MatchResult result (λ text. constant_text wanted token.now ≡ Ok text.items)
        (IsTokenFault (constant_text wanted token.now)) }
{
    match constant_kind(alloc, token.text())? {
        Some(kind) if fits(wanted, kind) => Ok(Vec::from_slice(alloc, token.text())?),
        _ => Err(refused(token.at(), wanted)),
    }
}

/// A word in quotes, but a version as it stands.
fn word_text(alloc: Global, wanted: Wanted, token: &Token) -> Result<Piece, Fault>
    ensures { MatchResult result (λ text. word_text wanted token.now ≡ Ok text.items)
        (IsTokenFault (word_text wanted token.now)) }
{
    if !is_one_of(wanted_words(wanted), token_name(token)) {
        return Err(refused(token.at(), wanted));
    }
    Ok(word_json(alloc, wanted, token.text())?)
}

/// A word in quotes, but a version as it stands.
fn word_json(alloc: Global, wanted: Wanted, word: &[u8]) -> Result<Piece, AllocError>
    ensures { IfOk result (λ text. text.items ≡ word_json wanted word.now) }
{
    match wanted {
        Wanted::Version => Vec::from_slice(alloc, word),
        _ => quoted_word(alloc, word),
    }
}
