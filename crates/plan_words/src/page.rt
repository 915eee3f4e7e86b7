//! A text that is laid out token by token.
ghost use Rattle.std.specs.Prelude.{◌≡◌, ◌++◌, [], OnOk, false, true};
ghost use Rattle.plan_words.specs.Wholes.{is_sign, is_whole};
ghost use Rattle.plan_words.specs.Pages.{AddsToken, IsOnNextLine, KeepsTokens};

use crate::widths::width_of_argument;
use std::alloc::{AllocError, Global};
use std::marker::Model;

/// The most columns of a line.
pub const MOST_COLUMNS: usize = 100;

/// The most columns before the first token of a line.
const MOST_INDENT: usize = 40;

/// What is open: brackets, or the text as a whole.
#[derive(Clone, Copy)]
struct Group {
    /// Each argument begins a line.
    arguments: bool,
    /// Each node behind a bar begins a line.
    bars: bool,
}

/// A text that is laid out token by token.
#[derive(Drop)]
pub(crate) struct Page {
    text: Vec<u8>,
    column: usize,
    groups: Vec<Group>,
    /// A blank stands before a word or a constant that comes next.
    apart: bool,
}

impl Model for Page {
    ghost use Rattle.plan_words.specs.Pages.{PageSeen};

    ghost Value = { PageSeen };

    ghost view = { λ p. record { text = p.text.items; apart = p.apart } };
}

impl Page {
    /// An empty page.
    pub(crate) fn new(alloc: Global) -> Page
        ensures text { result.text ≡ [] }
        ensures apart { result.apart ≡ false }
    {
        Page {
            text: Vec::new(alloc),
            column: 0,
            groups: Vec::new(alloc),
            apart: false,
        }
    }

    /// Its text.
    pub(crate) fn into_text(self) -> Vec<u8>
        ensures { result.items ≡ self.text }
    {
        self.text
    }

    /// Adds a bar, a bracket or a comma; a blank stands behind it before a word, or doesn't.
    pub(crate) fn put_sign(&mut self, word: &[u8], apart: bool) -> Result<(), AllocError>
        requires { is_sign word.now ≡ true }
        ensures { OnOk result (AddsToken word.now self.old self.new) }
    {
        self.put(word)?;
        self.set_apart(apart);
        Ok(())
    }

    /// Whether each node behind a bar begins a line, in what is open last.
    pub(crate) fn breaks_bars(&self) -> bool {
        match self.groups.last() {
            Some(group) => group.bars,
            None => false,
        }
    }

    /// Ends what is open last, and tells whether its arguments begin lines.
    pub(crate) fn end_group(&mut self) -> bool
        ensures { self.new ≡ self.old }
    {
        match self.groups.pop() {
            Some(group) => group.arguments,
            None => false,
        }
    }

    /// An argument begins, of a group whose arguments begin lines or don't.
    #[tactic(auto, using(crate::proofs::PageLemmas::line_keeps))]
    pub(crate) fn begin_group(
        &mut self,
        arguments: bool,
        later: &[Vec<u8>],
    ) -> Result<(), AllocError>
        ensures { OnOk result (KeepsTokens self.old self.new) }
    {
        let columns = width_of_argument(later)
            .saturating_add(self.indent())
            .saturating_add(2);
        let bars = columns > MOST_COLUMNS;
        self.open_group(Group { arguments, bars })?;
        if arguments {
            self.line()?;
            Ok(())
        } else {
            Ok(())
        }
    }

    /// Opens this group.
    fn open_group(&mut self, group: Group) -> Result<(), AllocError>
        ensures { OnOk result (self.new ≡ self.old) }
    {
        self.groups.push(group)?;
        Ok(())
    }

    /// The columns before the first token of a line.
    fn indent(&self) -> usize {
        let indent = match self.groups.len() {
            0 => 0,
            depth => depth.saturating_sub(1).saturating_mul(2),
        };
        indent.min(MOST_INDENT)
    }

    /// Begins a line where so many columns aren't left.
    #[tactic(auto, using(crate::proofs::PageLemmas::line_keeps))]
    pub(crate) fn guard(&mut self, columns: usize) -> Result<(), AllocError>
        ensures { OnOk result (KeepsTokens self.old self.new) }
    {
        if self.fits(columns) || self.is_at_head() {
            return Ok(());
        }
        self.line()?;
        Ok(())
    }

    /// A blank, where one has to stand.
    #[tactic(auto, using(crate::proofs::PageLemmas::space_keeps))]
    pub(crate) fn blank(&mut self) -> Result<(), AllocError>
        ensures keeps { OnOk result (KeepsTokens self.old self.new) }
        ensures apart { OnOk result (self.new.apart ≡ false) }
    {
        if !self.is_apart() {
            return Ok(());
        }
        self.put(b" ")?;
        self.set_apart(false);
        Ok(())
    }

    /// Whether a blank has to stand before a word or a constant that comes next.
    fn is_apart(&self) -> bool
        ensures { result ≡ self.now.apart }
    {
        self.apart
    }

    /// A blank has to stand there, or hasn't.
    fn set_apart(&mut self, apart: bool)
        ensures text { self.new.text ≡ self.old.text }
        ensures apart { self.new.apart ≡ apart }
    {
        self.apart = apart;
    }

    /// Ends the line.
    pub(crate) fn end_line(&mut self) -> Result<(), AllocError>
        ensures { OnOk result (KeepsTokens self.old self.new) }
    {
        self.put(b"\n")?;
        self.start_line();
        Ok(())
    }

    /// A line begins here.
    fn start_line(&mut self)
        ensures text { self.new.text ≡ self.old.text }
        ensures apart { self.new.apart ≡ false }
    {
        self.column = 0;
        self.apart = false;
    }

    /// Begins a line.
    pub(crate) fn line(&mut self) -> Result<(), AllocError>
        ensures { OnOk result (IsOnNextLine self.old self.new) }
    {
        self.put(b"\n")?;
        self.start_line();
        'columns: for _column in 0..self.indent() {
            self.put(b" ")?;
        }
        Ok(())
    }

    /// Adds bytes.
    pub(crate) fn put(&mut self, bytes: &[u8]) -> Result<(), AllocError>
        ensures text { OnOk result (self.new.text ≡ self.old.text ++ bytes.now) }
        ensures apart { OnOk result (self.new.apart ≡ self.old.apart) }
    {
        self.text.extend_from_slice(bytes)?;
        self.column = self.column.saturating_add(bytes.len());
        Ok(())
    }

    /// Adds a word or a constant; a blank stands behind it before the next.
    pub(crate) fn put_whole(&mut self, word: &[u8]) -> Result<(), AllocError>
        requires whole { is_whole word.now ≡ true }
        requires apart { self.old.apart ≡ false }
        ensures { OnOk result (AddsToken word.now self.old self.new) }
    {
        self.put_long(word)?;
        self.set_apart(true);
        Ok(())
    }

    /// Whether nothing stands on the line but the blanks before its first token.
    fn is_at_head(&self) -> bool {
        self.column <= self.indent()
    }

    /// Whether so many columns are left on the line.
    pub(crate) fn fits(&self, columns: usize) -> bool {
        self.column.saturating_add(columns) <= MOST_COLUMNS
    }
}
