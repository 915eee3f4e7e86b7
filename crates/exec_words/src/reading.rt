//! How the words behind the first one are read, one after another.
//!
//!     nothing said --name--> the plan --name--> the plan and a number
//!     any --`--name`--> an awaited value --word--> any, with the option's value
//!     any --`--name=value`--> any, with the option's value
//!     any --`--summary`--> any, with the summary
//!
//! Each is said once.
ghost use Rattle.std.specs.Prelude.{◌≡◌};
ghost use Rattle.exec_words.specs.Reading.{is_name, nothing_said, setting_named, order_named, with_workers, with_window, with_order, with_value, with_summary, with_name, with_option, with_word};

use crate::command::Order;
use crate::number::{MOST_WINDOW, MOST_WORKERS, number_between};

/// The options that take a value.
#[derive(Clone, Copy, PartialEq, Eq)]
pub enum Setting {
    Workers,
    Window,
    Order,
}

/// What the words behind the first one have said so far.
#[derive(Clone, Copy)]
pub struct Reading<'a> {
    /// The first word that is a name, and the second.
    pub plan: Option<&'a str>,
    pub count: Option<&'a str>,
    pub workers: Option<u32>,
    pub window: Option<u32>,
    pub order: Option<Order>,
    pub summary: bool,
    /// The option whose value is the next word.
    pub awaits: Option<Setting>,
}

/// Whether a word is a name: it isn't empty and doesn't begin with `-`.
pub fn is_name(word: &str) -> bool
    ensures { result ≡ is_name word.now }
{
    match word.as_bytes() {
        [] => false,
        [first, ..] => *first != b'-',
    }
}

// The option of this name, which takes a value.
fn setting_named(name: &str) -> Option<Setting>
    ensures { result ≡ setting_named name.now }
{
    if name == "--workers" {
        return Some(Setting::Workers);
    }
    if name == "--window" {
        return Some(Setting::Window);
    }
    if name == "--order" {
        return Some(Setting::Order);
    }
    None
}

fn order_named(name: &str) -> Option<Order>
    ensures { result ≡ order_named name.now }
{
    if name == "fifo" {
        return Some(Order::Fifo);
    }
    if name == "lifo" {
        return Some(Order::Lifo);
    }
    None
}

impl<'a> Reading<'a> {
    /// Nothing was said yet.
    pub fn new() -> Reading<'a>
        ensures { result ≡ nothing_said }
    {
        Reading {
            plan: None,
            count: None,
            workers: None,
            window: None,
            order: None,
            summary: false,
            awaits: None,
        }
    }

    /// With one word more. `None` is a fault of usage.
    pub fn with_word(self, word: &'a str) -> Option<Reading<'a>>
        ensures { result ≡ with_word word.entry self.entry }
    {
        if let Some(setting) = self.awaits {
            return self.with_value(setting, word);
        }
        if is_name(word) {
            return self.with_name(word);
        }
        self.with_option(word)
    }

    fn with_name(self, name: &'a str) -> Option<Reading<'a>>
        ensures { result ≡ with_name name.entry self.entry }
    {
        if self.plan.is_none() {
            return Some(Reading {
                plan: Some(name),
                ..self
            });
        }
        if self.count.is_none() {
            return Some(Reading {
                count: Some(name),
                ..self
            });
        }
        None
    }

    fn with_option(self, word: &str) -> Option<Reading<'a>>
        ensures { result ≡ with_option word.now self.entry }
    {
        if let Some(setting) = setting_named(word) {
            return Some(Reading {
                awaits: Some(setting),
                ..self
            });
        }
        if word == "--summary" {
            return self.with_summary();
        }
        let (name, value) = word.split_once('=')?;
        let setting = setting_named(name)?;
        self.with_value(setting, value)
    }

    fn with_summary(self) -> Option<Reading<'a>>
        ensures { result ≡ with_summary self.entry }
    {
        if self.summary {
            return None;
        }
        Some(Reading {
            summary: true,
            ..self
        })
    }

    fn with_value(self, setting: Setting, value: &str) -> Option<Reading<'a>>
        ensures { result ≡ with_value setting value.now self.entry }
    {
        match setting {
            Setting::Workers => self.with_workers(value),
            Setting::Window => self.with_window(value),
            Setting::Order => self.with_order(value),
        }
    }

    fn with_workers(self, value: &str) -> Option<Reading<'a>>
        ensures { result ≡ with_workers value.now self.entry }
    {
        if self.workers.is_some() {
            return None;
        }
        let workers = number_between(0, MOST_WORKERS, value)?;
        Some(Reading {
            workers: Some(workers),
            awaits: None,
            ..self
        })
    }

    fn with_window(self, value: &str) -> Option<Reading<'a>>
        ensures { result ≡ with_window value.now self.entry }
    {
        if self.window.is_some() {
            return None;
        }
        let window = number_between(1, MOST_WINDOW, value)?;
        Some(Reading {
            window: Some(window),
            awaits: None,
            ..self
        })
    }

    fn with_order(self, value: &str) -> Option<Reading<'a>>
        ensures { result ≡ with_order value.now self.entry }
    {
        if self.order.is_some() {
            return None;
        }
        let order = order_named(value)?;
        Some(Reading {
            order: Some(order),
            awaits: None,
            ..self
        })
    }
}
