//! How an outcome is written as a line.
ghost use Rattle.std.specs.Prelude.{◌≡◌, [], ◌∷◌, IfSome};
ghost use Rattle.std.specs.List.{flat_map};
ghost use Rattle.exec_value.specs.Bytes.{blank};
ghost use Rattle.exec_value.specs.declared.data.Datum.{Datum};
ghost use Rattle.exec_value.specs.declared.outcome.Completion.{Completion};
ghost use Rattle.exec_value.specs.declared.outcome.Outcome.{Outcome};
ghost use Rattle.outcome_lines.specs.Line.{text_of, words_of, outcome_words, line_of};
ghost use Rattle.exec_io.specs.Writing.{Puts};

use crate::int_line::put_int_line;
use crate::piece::{PIECE_BYTES, Piece};
use crate::put::{put_int, put_number, put_row, put_text};
use exec_io::{Failed, Sink, put_bytes};
use exec_value::{Completion, Datum, Outcome};

/// Writes the line of the record of this number. It takes no memory.
///
/// `Failed` comes only where the sink's count of faults rose, and then a front of the line was
/// appended.
pub fn put_line<K: Sink>(number: u64, outcome: &Outcome, sink: &mut K) -> Result<(), Failed>
    ensures { Puts (K.told sink.old) (K.told sink.new) result
        (line_of number outcome.now) }
{
    match int_of(outcome) {
        Some(value) => put_int_line(number, value, sink),
        None => put_any_line(number, outcome, sink),
    }
}

/// The int, where an outcome is a value of one.
fn int_of(outcome: &Outcome) -> Option<i64>
    ensures { IfSome result (λ n.
        outcome.now ≡ Outcome.Done (Completion.Value (Datum.Int n ∷ []))) }
{
    match outcome {
        Outcome::Done(Completion::Value(values)) => values.one_int(),
        _ => None,
    }
}

/// Writes the line of any outcome, out of the way of those that are one int.
#[inline(never)]
fn put_any_line<K: Sink>(number: u64, outcome: &Outcome, sink: &mut K) -> Result<(), Failed>
    ensures { Puts (K.told sink.old) (K.told sink.new) result
        (line_of number outcome.now) }
{
    if !may_fit(outcome) {
        return put_parts(number, outcome, sink);
    }
    let mut piece = Piece::empty();
    match put_parts(number, outcome, &mut piece) {
        Ok(()) => put_bytes(piece.as_slice(), sink),
        Err(Failed) => put_parts(number, outcome, sink),
    }
}

/// Whether a line is worth gathering: no text and no row of the outcome is long. A line is the same
/// either way.
fn may_fit(outcome: &Outcome) -> bool {
    match outcome {
        Outcome::Done(Completion::Value(values)) => values
            .as_slice()
            .iter()
            .all(|datum| is_short(datum)),
        _ => true,
    }
}

/// Whether a datum is likely to fit into a piece.
fn is_short(datum: &Datum) -> bool {
    match datum {
        Datum::Text(text) | Datum::SomeText(text) => text.as_bytes().len() < PIECE_BYTES,
        Datum::Row(row) => row.as_slice().len() < PIECE_BYTES / 8,
        _ => true,
    }
}

/// Writes a line part by part.
fn put_parts<K: Sink>(number: u64, outcome: &Outcome, sink: &mut K) -> Result<(), Failed>
    ensures { Puts (K.told sink.old) (K.told sink.new) result
        (line_of number outcome.now) }
{
    put_number(number, sink)?;
    put_bytes(b" ", sink)?;
    put_outcome(outcome, sink)?;
    put_bytes(b"\n", sink)
}

/// Writes what a line says of an outcome.
fn put_outcome<K: Sink>(outcome: &Outcome, sink: &mut K) -> Result<(), Failed>
    ensures { Puts (K.told sink.old) (K.told sink.new) result
        (outcome_words outcome.now) }
{
    match outcome {
        Outcome::Done(completion) => put_completion(completion, sink),
        Outcome::BadRecord => put_bytes(b"bad-record", sink),
    }
}

/// Writes what a line says of a completion.
fn put_completion<K: Sink>(completion: &Completion, sink: &mut K) -> Result<(), Failed>
    ensures { Puts (K.told sink.old) (K.told sink.new) result
        (words_of completion.now) }
{
    match completion {
        Completion::Value(values) => {
            put_bytes(b"value", sink)?;
            put_values(values.as_slice(), sink)
        }
        Completion::Error(name) => {
            put_bytes(b"error ", sink)?;
            put_bytes(name.as_bytes(), sink)
        }
        Completion::Stopped => put_bytes(b"stopped", sink),
        Completion::NoMemory => put_bytes(b"out-of-memory", sink),
    }
}

/// Writes data, each behind a blank.
fn put_values<K: Sink>(values: &[Datum], sink: &mut K) -> Result<(), Failed>
    ensures { Puts (K.told sink.old) (K.told sink.new) result
        (flat_map (λ datum. blank ∷ text_of datum) values.now) }
{
    for datum in values {
        put_bytes(b" ", sink)?;
        put_datum(datum, sink)?;
    }
    Ok(())
}

/// Writes the text of a datum.
fn put_datum<K: Sink>(datum: &Datum, sink: &mut K) -> Result<(), Failed>
    ensures { Puts (K.told sink.old) (K.told sink.new) result (text_of datum.now) }
{
    match datum {
        Datum::Int(number) => put_int(*number, sink),
        Datum::Text(text) => put_text(text.as_bytes(), sink),
        Datum::Row(row) => put_row(row.as_slice(), sink),
        Datum::SomeInt(number) => {
            put_bytes(b"some ", sink)?;
            put_int(*number, sink)
        }
        Datum::SomeText(text) => {
            put_bytes(b"some ", sink)?;
            put_text(text.as_bytes(), sink)
        }
        Datum::Nothing => put_bytes(b"none", sink),
    }
}
