//! What a token is, by its first byte.
ghost use Rattle.std.specs.Prelude.{◌≡◌};
ghost use Rattle.plan_words.specs.Kinds.{token_kind};

/// What a token is.
#[derive(Clone, Copy, Debug, PartialEq, Eq)]
pub enum TokenKind {
    Word,
    /// A number, a text or a row.
    Constant,
    Bar,
    Open,
    Close,
    Comma,
}

/// What a token with these bytes is.
pub fn token_kind(text: &[u8]) -> TokenKind
    ensures { result ≡ token_kind text.now }
{
    match text {
        [b'|', ..] => TokenKind::Bar,
        [b'(', ..] => TokenKind::Open,
        [b')', ..] => TokenKind::Close,
        [b',', ..] => TokenKind::Comma,
        [b'"' | b'[' | b'-' | b'0'..=b'9', ..] => TokenKind::Constant,
        _ => TokenKind::Word,
    }
}
