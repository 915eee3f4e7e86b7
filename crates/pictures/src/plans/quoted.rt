//! How a text stands in a label: in quotes, and on one line.
ghost use Rattle.std.specs.Prelude.{◌≡◌, OnOk};
ghost use Rattle.std.specs.List.{flat_map};
ghost use Rattle.pictures.specs.Adding.{Adds};
ghost use Rattle.pictures.specs.Plans.Quoted.{byte_text, digit, hidden_text, quoted_text};

use crate::plans::folds::put_bytes;
use crate::text::put_all;
use std::alloc::AllocError;

/// The hexadecimal digits.
const DIGITS: &[u8] = b"0123456789abcdef";

/// Adds a text in quotes.
#[tactic(auto, unfolding(crate::specs::Plans::Quoted::quoted_text))]
pub(crate) fn put_quoted(bytes: &[u8], text: &mut Vec<u8>) -> Result<(), AllocError>
    ensures { OnOk result (Adds text.old.items text.new.items (quoted_text bytes.now)) }
{
    put_all(&["\\\""], text)?;
    put_each(bytes, text)?;
    put_all(&["\\\""], text)
}

/// Adds the bytes of a text.
fn put_each(bytes: &[u8], text: &mut Vec<u8>) -> Result<(), AllocError>
    ensures { OnOk result (Adds text.old.items text.new.items (flat_map byte_text bytes.now)) }
{
    for byte in bytes {
        put_byte(*byte, text)?;
    }
    Ok(())
}

/// Adds a byte of a text.
fn put_byte(byte: u8, text: &mut Vec<u8>) -> Result<(), AllocError>
    ensures { OnOk result (Adds text.old.items text.new.items (byte_text byte)) }
{
    if byte == b'"' {
        return put_all(&["\\\\\\\""], text);
    }
    if byte == b'\\' {
        return put_all(&["\\\\\\\\"], text);
    }
    if byte == b'&' {
        return put_all(&["&amp;"], text);
    }
    if byte < 32 {
        return put_hidden(byte, text);
    }
    put_bytes(&[byte], text)
}

/// Adds a byte that a label doesn't show.
fn put_hidden(byte: u8, text: &mut Vec<u8>) -> Result<(), AllocError>
    ensures { OnOk result (Adds text.old.items text.new.items (hidden_text byte)) }
{
    put_all(&["\\\\u00"], text)?;
    put_digit(byte / 16, text)?;
    put_digit(byte % 16, text)
}

/// Adds the hexadecimal digit of a number below 16.
fn put_digit(number: u8, text: &mut Vec<u8>) -> Result<(), AllocError>
    ensures { OnOk result (Adds text.old.items text.new.items (digit number)) }
{
    match DIGITS.get(number as usize) {
        Some(digit) => put_bytes(&[*digit], text),
        None => put_bytes(b"0", text),
    }
}
