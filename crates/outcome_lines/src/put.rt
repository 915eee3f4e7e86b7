//! How bytes, numbers and texts are put into a sink. No call takes memory.
ghost use Rattle.std.specs.Prelude.{◌≡◌, ◌<◌, ◌∷◌, false};
ghost use Rattle.std.specs.Fmt.{decimal, signed_decimal, digit_glyph};
ghost use Rattle.std.specs.List.{flat_map};
ghost use Rattle.exec_value.specs.Bytes.{comma};
ghost use Rattle.outcome_lines.specs.Line.{escaped, escape_of, is_plain, quoted, row_text};
ghost use Rattle.exec_io.specs.Writing.{Puts};

use crate::piece::Piece;
use exec_io::{Failed, Sink, put_bytes};
use itoa::Buffer;

/// How many numbers of a row are written in one piece: as many as fit, however long they are.
const TOGETHER: usize = 6;

/// Writes a number in decimal.
pub(crate) fn put_int<K: Sink>(number: i64, sink: &mut K) -> Result<(), Failed>
    ensures { Puts (K.told sink.old) (K.told sink.new) result (signed_decimal number) }
{
    let mut buffer = Buffer::new();
    put_bytes(buffer.format(number).as_bytes(), sink)
}

/// Writes an unsigned number in decimal.
pub(crate) fn put_number<K: Sink>(number: u64, sink: &mut K) -> Result<(), Failed>
    ensures { Puts (K.told sink.old) (K.told sink.new) result (decimal number) }
{
    let mut buffer = Buffer::new();
    put_bytes(buffer.format(number).as_bytes(), sink)
}

/// Writes a row's numbers between brackets.
pub(crate) fn put_row<K: Sink>(numbers: &[i64], sink: &mut K) -> Result<(), Failed>
    ensures { Puts (K.told sink.old) (K.told sink.new) result (row_text numbers.now) }
{
    match numbers {
        [] => put_bytes(b"[]", sink),
        [first, later @ ..] => {
            put_bytes(b"[", sink)?;
            put_int(*first, sink)?;
            put_later(later, sink)?;
            put_bytes(b"]", sink)
        }
    }
}

/// Writes numbers, each behind a comma, several in one piece.
fn put_later<K: Sink>(numbers: &[i64], sink: &mut K) -> Result<(), Failed>
    ensures { Puts (K.told sink.old) (K.told sink.new) result
        (flat_map (λ n. comma ∷ signed_decimal n) numbers.now) }
{
    let mut done = 0;
    while done < numbers.len() {
        let end = numbers.len().min(done + TOGETHER);
        put_together(&numbers[done..end], sink)?;
        done = end;
    }
    Ok(())
}

/// Writes numbers, each behind a comma, in one piece where they fit.
fn put_together<K: Sink>(numbers: &[i64], sink: &mut K) -> Result<(), Failed>
    ensures { Puts (K.told sink.old) (K.told sink.new) result
        (flat_map (λ n. comma ∷ signed_decimal n) numbers.now) }
{
    let mut piece = Piece::empty();
    match put_each(numbers, &mut piece) {
        Ok(()) => put_bytes(piece.as_slice(), sink),
        Err(Failed) => put_each(numbers, sink),
    }
}

/// Writes numbers one by one, each behind a comma.
fn put_each<K: Sink>(numbers: &[i64], sink: &mut K) -> Result<(), Failed>
    ensures { Puts (K.told sink.old) (K.told sink.new) result
        (flat_map (λ n. comma ∷ signed_decimal n) numbers.now) }
{
    for number in numbers {
        put_bytes(b",", sink)?;
        put_int(*number, sink)?;
    }
    Ok(())
}

/// Writes a text between quotes.
pub(crate) fn put_text<K: Sink>(bytes: &[u8], sink: &mut K) -> Result<(), Failed>
    ensures { Puts (K.told sink.old) (K.told sink.new) result (quoted bytes.now) }
{
    put_bytes(b"\"", sink)?;
    put_escaped(bytes, sink)?;
    put_bytes(b"\"", sink)
}

/// Writes the bytes of a text, those that need it escaped, and what stands between them in one
/// piece.
fn put_escaped<K: Sink>(bytes: &[u8], sink: &mut K) -> Result<(), Failed>
    ensures { Puts (K.told sink.old) (K.told sink.new) result
        (flat_map escaped bytes.now) }
{
    let mut start = 0;
    for at in 0..bytes.len() {
        if !is_plain(bytes[at]) {
            put_bytes(&bytes[start..at], sink)?;
            put_escape(bytes[at], sink)?;
            start = at + 1;
        }
    }
    put_bytes(&bytes[start..], sink)
}

/// Whether a byte of a text stands as it is.
fn is_plain(byte: u8) -> bool
    ensures { result ≡ is_plain byte }
{
    !byte.is_ascii_control() && byte != b'"' && byte != b'\\'
}

/// Writes a byte that doesn't stand as it is.
fn put_escape<K: Sink>(byte: u8, sink: &mut K) -> Result<(), Failed>
    ensures { Puts (K.told sink.old) (K.told sink.new) result (escape_of byte) }
{
    if byte.is_ascii_control() {
        let high = hex_digit(byte / 16);
        let low = hex_digit(byte % 16);
        put_bytes(&[b'\\', b'u', b'0', b'0', high, low], sink)
    } else {
        put_bytes(&[b'\\', byte], sink)
    }
}

/// A hexadecimal digit in lower case.
fn hex_digit(digit: u8) -> u8
    requires { digit < 16 }
    ensures { result ≡ digit_glyph false digit }
{
    if digit < 10 {
        b'0' + digit
    } else {
        b'a' + (digit - 10)
    }
}
