//! Words and constants on a page, over several lines where they have to be.
ghost use Rattle.std.specs.Prelude.{◌≡◌, ◌<◌, ◌++◌, ◌==◌, ◌&&◌, OnOk, length, not, true};
ghost use Rattle.plan_words.specs.Seen.{IsBetween, IsInRow, IsInText, seen_in};
ghost use Rattle.plan_words.specs.Wholes.{is_whole};

use crate::page::Page;
use crate::widths::{width_of_character, width_of_item};
use std::alloc::AllocError;

impl Page {
    /// Adds a word or a constant, over several lines where it has to be.
    #[tactic(auto, using(crate::proofs::LongLemmas::puts))]
    pub(crate) fn put_long(&mut self, word: &[u8]) -> Result<(), AllocError>
        requires { is_whole word.now ≡ true }
        ensures { OnOk result (IsBetween (seen_in self.old.text)
            → seen_in self.new.text ≡ seen_in (self.old.text ++ word.now)) }
    {
        if self.fits(word.len()) {
            return self.put(word);
        }
        let Some((first, rest)) = word.split_first() else {
            return Ok(());
        };
        self.put(&[*first])?;
        match *first {
            b'"' => {
                self.put_text(rest)?;
                Ok(())
            }
            b'[' => {
                self.put_row(rest)?;
                Ok(())
            }
            _ => self.put(rest),
        }
    }

    /// Adds a text's bytes behind the first quote.
    fn put_text(&mut self, bytes: &[u8]) -> Result<(), AllocError>
        ensures { OnOk result (IsInText true bytes.now (seen_in self.old.text)
            → seen_in self.new.text ≡ seen_in (self.old.text ++ bytes.now)) }
    {
        let mut can_cut = true;
        'bytes: for (index, byte) in bytes.iter().enumerate() {
            self.cut_text(can_cut, &bytes[index..])?;
            self.put(&[*byte])?;
            can_cut = can_cut_behind(can_cut, *byte);
        }
        Ok(())
    }

    /// Goes on in the next line, if the text can be cut before these bytes and the character that
    /// they begin with doesn't fit.
    #[tactic(auto, using(crate::proofs::Broken::text_broken))]
    fn cut_text(&mut self, can_cut: bool, rest: &[u8]) -> Result<(), AllocError>
        requires { 0 < length rest.now }
        ensures { OnOk result (IsInText can_cut rest.now (seen_in self.old.text)
            → seen_in self.new.text ≡ seen_in self.old.text) }
    {
        if can_cut && !self.fits(width_of_character(rest).saturating_add(2)) {
            self.put(b"\"\\")?;
            self.line()?;
            self.put(b"\"")?;
        }
        Ok(())
    }

    /// Adds a row's bytes behind the bracket.
    fn put_row(&mut self, bytes: &[u8]) -> Result<(), AllocError>
        ensures { OnOk result (IsInRow true bytes.now (seen_in self.old.text)
            → seen_in self.new.text ≡ seen_in (self.old.text ++ bytes.now)) }
    {
        let mut can_cut = true;
        'bytes: for (index, byte) in bytes.iter().enumerate() {
            self.cut_row(can_cut, &bytes[index..])?;
            self.put(&[*byte])?;
            can_cut = *byte == b',';
        }
        Ok(())
    }

    /// Goes on in the next line, if the row can be cut before these bytes and the number that they
    /// begin with doesn't fit.
    #[tactic(auto, using(crate::proofs::Broken::row_broken))]
    fn cut_row(&mut self, can_cut: bool, rest: &[u8]) -> Result<(), AllocError>
        requires { 0 < length rest.now }
        ensures { OnOk result (IsInRow can_cut rest.now (seen_in self.old.text)
            → seen_in self.new.text ≡ seen_in self.old.text) }
    {
        if can_cut && !self.fits(width_of_item(rest).saturating_add(2)) {
            self.line()?;
        }
        Ok(())
    }
}

/// Whether a text can be cut behind this byte: not behind a backslash that escapes the next.
fn can_cut_behind(can_cut: bool, byte: u8) -> bool
    ensures { result ≡ not (can_cut && (byte == 92)) }
{
    !(can_cut && byte == b'\\')
}
