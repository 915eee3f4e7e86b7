//! How the words behind `trace` are read, one after another.
//!
//!     nothing said --name--> the file
//!     any --`--name`--> an awaited value --word--> any, with the option's value
//!     any --`--name=value`--> any, with the option's value
//!     any --`--refused`--> any, with the mark
//!
//! Each is said once.
ghost use Rattle.std.specs.Prelude.{◌≡◌};
ghost use Rattle.show_words.specs.Reading.{nothing_said_of_rows, row_setting_named, with_from, with_to, with_row, with_refused, with_trace_file, with_trace_option, with_trace_word};

use crate::asked::MOST_ENTRY;
use exec_words::{is_name, number_between};

/// The options that take a value.
#[derive(Clone, Copy, PartialEq, Eq)]
pub enum Setting {
    From,
    To,
}

/// What the words behind the first one have said so far.
#[derive(Clone, Copy)]
pub struct Reading<'a> {
    pub file: Option<&'a str>,
    pub from: Option<u32>,
    pub to: Option<u32>,
    pub refused: bool,
    /// The option whose value is the next word.
    pub awaits: Option<Setting>,
}

// The option of this name, which takes a value.
fn row_setting_named(name: &str) -> Option<Setting>
    ensures { result ≡ row_setting_named name.now }
{
    if name == "--from" {
        return Some(Setting::From);
    }
    if name == "--to" {
        return Some(Setting::To);
    }
    None
}

impl<'a> Reading<'a> {
    /// Nothing was said yet.
    pub fn new() -> Reading<'a>
        ensures { result ≡ nothing_said_of_rows }
    {
        Reading {
            file: None,
            from: None,
            to: None,
            refused: false,
            awaits: None,
        }
    }

    /// With one word more. `None` is a fault of usage.
    pub fn with_trace_word(self, word: &'a str) -> Option<Reading<'a>>
        ensures { result ≡ with_trace_word word.entry self.entry }
    {
        if let Some(setting) = self.awaits {
            return self.with_row(setting, word);
        }
        if is_name(word) {
            return self.with_trace_file(word);
        }
        self.with_trace_option(word)
    }

    fn with_trace_file(self, name: &'a str) -> Option<Reading<'a>>
        ensures { result ≡ with_trace_file name.entry self.entry }
    {
        if self.file.is_none() {
            return Some(Reading {
                file: Some(name),
                ..self
            });
        }
        None
    }

    fn with_trace_option(self, word: &str) -> Option<Reading<'a>>
        ensures { result ≡ with_trace_option word.now self.entry }
    {
        if let Some(setting) = row_setting_named(word) {
            return Some(Reading {
                awaits: Some(setting),
                ..self
            });
        }
        if word == "--refused" {
            return self.with_refused();
        }
        let (name, value) = word.split_once('=')?;
        let setting = row_setting_named(name)?;
        self.with_row(setting, value)
    }

    fn with_refused(self) -> Option<Reading<'a>>
        ensures { result ≡ with_refused self.entry }
    {
        if self.refused {
            return None;
        }
        Some(Reading {
            refused: true,
            ..self
        })
    }

    fn with_row(self, setting: Setting, value: &str) -> Option<Reading<'a>>
        ensures { result ≡ with_row setting value.now self.entry }
    {
        match setting {
            Setting::From => self.with_from(value),
            Setting::To => self.with_to(value),
        }
    }

    fn with_from(self, value: &str) -> Option<Reading<'a>>
        ensures { result ≡ with_from value.now self.entry }
    {
        if self.from.is_some() {
            return None;
        }
        let from = number_between(1, MOST_ENTRY, value)?;
        Some(Reading {
            from: Some(from),
            awaits: None,
            ..self
        })
    }

    fn with_to(self, value: &str) -> Option<Reading<'a>>
        ensures { result ≡ with_to value.now self.entry }
    {
        if self.to.is_some() {
            return None;
        }
        let to = number_between(1, MOST_ENTRY, value)?;
        Some(Reading {
            to: Some(to),
            awaits: None,
            ..self
        })
    }
}
