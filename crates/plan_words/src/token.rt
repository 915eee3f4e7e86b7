//! Tokens.
ghost use Rattle.std.specs.Prelude.{◌≡◌};

use std::marker::Model;

/// A token: its bytes, and the number of bytes before it in the text.
#[derive(Debug, Drop)]
pub struct Token {
    text: Vec<u8>,
    at: usize,
}

impl Model for Token {
    ghost use Rattle.plan_words.specs.Lexemes.{Lexeme};

    ghost Value = { Lexeme };

    ghost view = { λ t. record { text = t.text.items; at = t.at } };
}

impl Token {
    /// The token of these bytes, at this offset.
    pub fn new(text: Vec<u8>, at: usize) -> Token
        ensures { result ≡ record { text = text.items; at = at } }
    {
        Token { text, at }
    }

    /// Its bytes. Texts that are joined are one text, and a row has no blanks behind its commas.
    pub fn text(&self) -> &[u8]
        ensures { result.now ≡ self.now.text }
    {
        &self.text
    }

    /// How many bytes stand before it.
    pub fn at(&self) -> usize
        ensures { result ≡ self.now.at }
    {
        self.at
    }
}
