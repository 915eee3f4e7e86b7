//! What a list of words asks for.
ghost use Rattle.std.specs.Prelude.{◌≡◌};
ghost use Rattle.show_words.specs.Asks.{rows_of, trace_of, asked_of};
ghost use Rattle.show_words.specs.Reading.{read_rows_on};

use crate::asked::{Asked, MOST_ENTRY, Rows};
use crate::reading::Reading;
use exec_words::only_name;

/// What the words behind the program's name ask for. `None` is a fault of usage.
pub fn read_words<'a>(words: &[&'a str]) -> Option<Asked<'a>>
    ensures { result ≡ asked_of words.now }
{
    let (first, rest) = words.split_first()?;
    if *first == "plan" {
        let file = only_name(rest)?;
        return Some(Asked::Plan { file });
    }
    if *first == "trace" {
        return trace_of(read_rows_on(Reading::new(), rest)?);
    }
    if *first == "why" {
        let file = only_name(rest)?;
        return Some(Asked::Why { file });
    }
    if *first == "write" {
        let file = only_name(rest)?;
        return Some(Asked::Write { file });
    }
    if *first == "text" {
        let file = only_name(rest)?;
        return Some(Asked::Text { file });
    }
    None
}

// What these words say after what was said before them. There are few steps: the seventh word, or
// the first fault before it, is the last that is read.
fn read_rows_on<'a>(reading: Reading<'a>, words: &[&'a str]) -> Option<Reading<'a>>
    ensures { result ≡ read_rows_on reading.entry words.now }
{
    let Some((word, rest)) = words.split_first() else {
        return Some(reading);
    };
    let next = reading.with_trace_word(*word)?;
    read_rows_on(next, rest)
}

// A picture of a trace needs a file, and its last row isn't before its first.
fn trace_of(reading: Reading<'_>) -> Option<Asked<'_>>
    ensures { result ≡ trace_of reading.entry }
{
    if reading.awaits.is_some() {
        return None;
    }
    let rows = rows_of(reading);
    if rows.last < rows.first {
        return None;
    }
    let file = reading.file?;
    Some(Asked::Trace { file, rows })
}

// All rows, where nothing else is said.
fn rows_of(reading: Reading<'_>) -> Rows
    ensures { result ≡ rows_of reading.entry }
{
    Rows {
        refused: reading.refused,
        first: reading.from.unwrap_or(1),
        last: reading.to.unwrap_or(MOST_ENTRY),
    }
}
