//! How a text is cut into tokens.
ghost use Rattle.std.specs.Prelude.{◌≡◌, IfOk, OnOk};
ghost use Rattle.plan_words.specs.Bytes.{ends_word, is_blank, is_mark};
ghost use Rattle.plan_words.specs.Cutting.{after_byte, after_escape, after_joint, after_quote, after_row, after_text_byte, before_text, token_begun, between_tokens, closed, all_tokens, grown, mode_of, tokens_of};

use crate::token::Token;
use std::alloc::{AllocError, Global};
use std::marker::Model;
use std::mem;

/// What the next byte is part of.
#[derive(Clone, Copy, Debug, PartialEq, Eq)]
pub(crate) enum Mode {
    Between,
    Comment,
    Word,
    Text,
    /// A text, behind a backslash.
    Escaped,
    /// A text, behind a quote that may end it.
    Quoted,
    /// A text, behind a quote and a backslash: it goes on with the next quote.
    Joined,
    Row,
    /// A row, behind its bracket or a comma, where blanks don't count.
    Gap,
}

/// A text that is cut byte by byte: the tokens so far, and the one that isn't ended.
#[derive(Drop)]
struct Cutter {
    alloc: Global,
    tokens: Vec<Token>,
    part: Vec<u8>,
    at: usize,
    mode: Mode,
}

impl Model for Cutter {
    ghost use Rattle.plan_words.specs.Cutting.{CutSoFar};

    ghost Value = { CutSoFar };

    ghost view = { λ c. record {
      tokens = c.tokens.items;
      part = record { text = c.part.items; at = c.at };
      mode = c.mode;
    } };
}

/// The tokens of a text.
pub fn tokens_of(alloc: Global, text: &[u8]) -> Result<Vec<Token>, AllocError>
    ensures { IfOk result (λ tokens. tokens.items ≡ tokens_of text.now) }
{
    let mut cutter = Cutter::new(alloc);
    'bytes: for (at, byte) in text.iter().enumerate() {
        cutter.after_byte(at, *byte)?;
    }
    cutter.finish()
}

impl Cutter {
    /// A cutter before the first byte.
    fn new(alloc: Global) -> Cutter
        ensures { result ≡ before_text }
    {
        Cutter {
            alloc,
            tokens: Vec::new(alloc),
            part: Vec::new(alloc),
            at: 0,
            mode: Mode::Between,
        }
    }

    /// The tokens, where the text ends here.
    fn finish(mut self) -> Result<Vec<Token>, AllocError>
        ensures { IfOk result (λ tokens. tokens.items ≡ all_tokens self) }
    {
        match self.mode {
            Mode::Between | Mode::Comment => Ok(self.tokens),
            Mode::Quoted => {
                self.grow(b'"')?;
                self.close()?;
                Ok(self.tokens)
            }
            _ => {
                self.close()?;
                Ok(self.tokens)
            }
        }
    }

    /// Takes the next byte, at this offset.
    fn after_byte(&mut self, at: usize, byte: u8) -> Result<(), AllocError>
        ensures { OnOk result (self.new ≡ after_byte at byte self.old) }
    {
        match self.mode {
            Mode::Between => self.between_tokens(at, byte),
            Mode::Comment => {
                if byte == b'\n' {
                    self.mode = Mode::Between;
                }
                Ok(())
            }
            Mode::Word => {
                if ends_word(byte) {
                    self.close()?;
                    self.between_tokens(at, byte)
                } else {
                    self.grow(byte)
                }
            }
            Mode::Text => self.after_text_byte(byte),
            Mode::Escaped => self.after_escape(byte),
            Mode::Quoted => self.after_quote(at, byte),
            Mode::Joined => self.after_joint(at, byte),
            Mode::Row => self.after_row(byte),
            Mode::Gap => {
                if is_blank(byte) {
                    Ok(())
                } else {
                    self.after_row(byte)
                }
            }
        }
    }

    /// A byte that belongs to no token before it.
    fn between_tokens(&mut self, at: usize, byte: u8) -> Result<(), AllocError>
        ensures { OnOk result (self.new ≡ between_tokens at byte self.old) }
    {
        if is_blank(byte) {
            self.mode = Mode::Between;
            return Ok(());
        }
        if byte == b'#' {
            self.mode = Mode::Comment;
            return Ok(());
        }
        self.begin(at, byte)?;
        if is_mark(byte) { self.close() } else { Ok(()) }
    }

    /// Begins a token.
    fn begin(&mut self, at: usize, byte: u8) -> Result<(), AllocError>
        ensures { OnOk result (self.new ≡ token_begun at byte self.old) }
    {
        self.at = at;
        self.mode = mode_of(byte);
        self.part.clear();
        self.part.push(byte)?;
        Ok(())
    }

    /// The next byte of a text.
    fn after_text_byte(&mut self, byte: u8) -> Result<(), AllocError>
        ensures { OnOk result (self.new ≡ after_text_byte byte self.old) }
    {
        match byte {
            b'\\' => {
                self.mode = Mode::Escaped;
                Ok(())
            }
            b'"' => {
                self.mode = Mode::Quoted;
                Ok(())
            }
            _ => self.grow(byte),
        }
    }

    /// The byte behind a backslash in a text.
    fn after_escape(&mut self, byte: u8) -> Result<(), AllocError>
        ensures { OnOk result (self.new ≡ after_escape byte self.old) }
    {
        self.mode = Mode::Text;
        self.grow(b'\\')?;
        self.grow(byte)
    }

    /// The byte behind a quote: a backslash joins the text with the next.
    fn after_quote(&mut self, at: usize, byte: u8) -> Result<(), AllocError>
        ensures { OnOk result (self.new ≡ after_quote at byte self.old) }
    {
        if byte == b'\\' {
            self.mode = Mode::Joined;
            return Ok(());
        }
        self.grow(b'"')?;
        self.close()?;
        self.between_tokens(at, byte)
    }

    /// The byte behind such a backslash. Blanks don't count, and what isn't joined keeps the
    /// backslash.
    fn after_joint(&mut self, at: usize, byte: u8) -> Result<(), AllocError>
        ensures { OnOk result (self.new ≡ after_joint at byte self.old) }
    {
        if is_blank(byte) {
            return Ok(());
        }
        if byte == b'"' {
            self.mode = Mode::Text;
            return Ok(());
        }
        self.grow(b'"')?;
        self.grow(b'\\')?;
        self.close()?;
        self.between_tokens(at, byte)
    }

    /// The next byte of a row.
    fn after_row(&mut self, byte: u8) -> Result<(), AllocError>
        ensures { OnOk result (self.new ≡ after_row byte self.old) }
    {
        self.grow(byte)?;
        if byte == b']' {
            return self.close();
        }
        self.mode = if byte == b',' { Mode::Gap } else { Mode::Row };
        Ok(())
    }

    /// One byte more of the token.
    fn grow(&mut self, byte: u8) -> Result<(), AllocError>
        ensures { OnOk result (self.new ≡ grown byte self.old) }
    {
        self.part.push(byte)?;
        Ok(())
    }

    /// Ends the token.
    fn close(&mut self) -> Result<(), AllocError>
        ensures { OnOk result (self.new ≡ closed self.old) }
    {
        let text = mem::replace(&mut self.part, Vec::new(self.alloc));
        self.tokens.push(Token::new(text, self.at))?;
        self.mode = Mode::Between;
        Ok(())
    }
}

/// How a token goes on that begins with this byte.
fn mode_of(byte: u8) -> Mode
    ensures { result ≡ mode_of byte }
{
    match byte {
        b'"' => Mode::Text,
        b'[' => Mode::Gap,
        _ => Mode::Word,
    }
}

/// A blank, a tab, or the end of a line.
fn is_blank(byte: u8) -> bool
    ensures { result ≡ is_blank byte }
{
    byte == b' ' || byte == b'\t' || byte == b'\n' || byte == b'\r'
}

/// A byte that is a token alone.
fn is_mark(byte: u8) -> bool
    ensures { result ≡ is_mark byte }
{
    byte == b'|' || byte == b'(' || byte == b')' || byte == b','
}

/// A byte that no word has.
fn ends_word(byte: u8) -> bool
    ensures { result ≡ ends_word byte }
{
    is_blank(byte) || is_mark(byte) || byte == b'"' || byte == b'[' || byte == b'#'
}
