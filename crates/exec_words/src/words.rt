//! The command of a list of words.
ghost use Rattle.std.specs.Prelude.{◌≡◌};
ghost use Rattle.exec_words.specs.Command.{options_of, run_of, gen_of, only_name, command_of};
ghost use Rattle.exec_words.specs.Reading.{read_on};

use crate::command::{Command, Options, Order};
use crate::number::{MOST_GENERATED, number_between};
use crate::reading::{Reading, is_name};

const DEFAULT_WORKERS: u32 = 4;

const DEFAULT_WINDOW: u32 = 64;

/// The command that the words behind the program's name ask for. `None` is a fault of usage.
pub fn read_words<'a>(words: &[&'a str]) -> Option<Command<'a>>
    ensures { result ≡ command_of words.now }
{
    let (first, rest) = words.split_first()?;
    if *first == "run" {
        return run_of(read_on(Reading::new(), rest)?);
    }
    if *first == "gen" {
        return gen_of(read_on(Reading::new(), rest)?);
    }
    if *first == "replay" {
        let file = only_name(rest)?;
        return Some(Command::Replay { file });
    }
    if *first == "check" {
        let file = only_name(rest)?;
        return Some(Command::Check { file });
    }
    None
}

// What these words say after what was said before them. There are few steps: the tenth word, or the
// first fault before it, is the last that is read.
fn read_on<'a>(reading: Reading<'a>, words: &[&'a str]) -> Option<Reading<'a>>
    ensures { result ≡ read_on reading.entry words.now }
{
    let Some((word, rest)) = words.split_first() else {
        return Some(reading);
    };
    let next = reading.with_word(*word)?;
    read_on(next, rest)
}

/// The one word there is, which is a name.
pub fn only_name<'a>(words: &[&'a str]) -> Option<&'a str>
    ensures { result ≡ only_name words.now }
{
    match words {
        [name] if is_name(*name) => Some(*name),
        _ => None,
    }
}

// A run needs a plan, and takes no number.
fn run_of(reading: Reading<'_>) -> Option<Command<'_>>
    ensures { result ≡ run_of reading.entry }
{
    if reading.awaits.is_some() || reading.count.is_some() {
        return None;
    }
    let plan = reading.plan?;
    Some(Command::Run {
        plan,
        options: options_of(reading),
        summary: reading.summary,
    })
}

// A run over generated records needs a plan and their number. It always prints the summary, and so
// takes no word for it.
fn gen_of(reading: Reading<'_>) -> Option<Command<'_>>
    ensures { result ≡ gen_of reading.entry }
{
    if reading.awaits.is_some() || reading.summary {
        return None;
    }
    let plan = reading.plan?;
    let count = reading.count?;
    let records = number_between(0, MOST_GENERATED, count)?;
    Some(Command::Gen {
        plan,
        records,
        options: options_of(reading),
    })
}

// The options that were said, and for the others what stands where they aren't.
fn options_of(reading: Reading<'_>) -> Options
    ensures { result ≡ options_of reading.entry }
{
    Options {
        workers: reading.workers.unwrap_or(DEFAULT_WORKERS),
        window: reading.window.unwrap_or(DEFAULT_WINDOW),
        order: reading.order.unwrap_or(Order::Fifo),
    }
}
