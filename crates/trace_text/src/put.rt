//! How the parts of a line are written. Each call adds to the end of `out`.
ghost use Rattle.std.specs.Prelude.{OnOk, [], ◌∷◌, decimal};
ghost use Rattle.std.specs.List.{flat_map};
ghost use Rattle.trace_text.specs.Adding.{Adds};
ghost use Rattle.trace_text.specs.Texts.{comma, apart, place_text, source_text, children_text, resting_text, after_text, cause_text, bit_text, scope_text};

use itoa::Buffer;
use life_rules::{Place, Resting, ScopeWord, SourceAt};
use std::alloc::AllocError;

/// Adds bytes.
pub fn put(bytes: &[u8], out: &mut Vec<u8>) -> Result<(), AllocError>
    ensures { OnOk result (Adds out.old.items out.new.items bytes.now) }
{
    out.extend_from_slice(bytes)?;
    Ok(())
}

/// Adds a number in decimal.
pub fn put_number(number: u32, out: &mut Vec<u8>) -> Result<(), AllocError>
    ensures { OnOk result (Adds out.old.items out.new.items (decimal number)) }
{
    let mut buffer = Buffer::new();
    put(buffer.format(number).as_bytes(), out)?;
    Ok(())
}

/// Adds a place: the block's number, a dot and the node's.
pub fn put_place(place: Place, out: &mut Vec<u8>) -> Result<(), AllocError>
    ensures { OnOk result (Adds out.old.items out.new.items (place_text place)) }
{
    put_number(place.block, out)?;
    put(b".", out)?;
    put_number(place.node, out)
}

/// Adds a source: the scope's, or a place.
pub fn put_source(source: SourceAt, out: &mut Vec<u8>) -> Result<(), AllocError>
    ensures { OnOk result (Adds out.old.items out.new.items (source_text source)) }
{
    match source {
        SourceAt::Scope => put(b"scope", out),
        SourceAt::At(place) => put_place(place, out),
    }
}

/// Adds numbers with commas between them.
pub fn put_children(children: &[u32], out: &mut Vec<u8>) -> Result<(), AllocError>
    ensures { OnOk result (Adds out.old.items out.new.items (children_text children.now)) }
{
    match children {
        [] => Ok(()),
        [first, later @ ..] => {
            put_number(*first, out)?;
            put_later(later, out)?;
            Ok(())
        }
    }
}

// Adds numbers, each behind a comma.
fn put_later(numbers: &[u32], out: &mut Vec<u8>) -> Result<(), AllocError>
    ensures { OnOk result
        (Adds out.old.items out.new.items (flat_map (λ n. comma ∷ decimal n) numbers.now)) }
{
    for number in numbers {
        put_next(*number, out)?;
    }
    Ok(())
}

// Adds a comma and a number.
fn put_next(number: u32, out: &mut Vec<u8>) -> Result<(), AllocError>
    ensures { OnOk result (Adds out.old.items out.new.items (comma ∷ decimal number)) }
{
    put(b",", out)?;
    put_number(number, out)
}

pub fn put_resting(to: Resting, out: &mut Vec<u8>) -> Result<(), AllocError>
    ensures { OnOk result (Adds out.old.items out.new.items (resting_text to)) }
{
    match to {
        Resting::Loop => put(b"loop", out),
        Resting::Pool => put(b"pool", out),
        Resting::Parked => put(b"parked", out),
    }
}

/// Adds the place after whose arming a look comes, behind a blank.
pub fn put_after(after: Option<Place>, out: &mut Vec<u8>) -> Result<(), AllocError>
    ensures { OnOk result (Adds out.old.items out.new.items (after_text after)) }
{
    match after {
        None => Ok(()),
        Some(place) => {
            put(b" ", out)?;
            put_place(place, out)?;
            Ok(())
        }
    }
}

pub fn put_cause(failure: bool, out: &mut Vec<u8>) -> Result<(), AllocError>
    ensures { OnOk result (Adds out.old.items out.new.items (cause_text failure)) }
{
    match failure {
        false => put(b"plain", out),
        true => put(b"failure", out),
    }
}

// Adds a bit, and the blank behind it.
fn put_bit(bit: bool, out: &mut Vec<u8>) -> Result<(), AllocError>
    ensures { OnOk result (Adds out.old.items out.new.items (apart (bit_text bit) [])) }
{
    match bit {
        false => put(b"0 ", out),
        true => put(b"1 ", out),
    }
}

/// Adds the word of a scope: four bits and the count, with blanks between them.
pub fn put_scope(word: ScopeWord, out: &mut Vec<u8>) -> Result<(), AllocError>
    ensures { OnOk result (Adds out.old.items out.new.items (scope_text word)) }
{
    put_bit(word.used, out)?;
    put_bit(word.closed, out)?;
    put_bit(word.joining, out)?;
    put_bit(word.joined, out)?;
    put_number(word.count, out)
}
