//! How sentences are put together. Each call adds to the end of `out`.
ghost use Rattle.std.specs.Prelude.{OnOk};
ghost use Rattle.pictures.specs.Adding.{Adds};
ghost use Rattle.trace_reasons.specs.Sentences.{between, source_name};

use life_rules::SourceAt;
use std::alloc::AllocError;
use trace_text::{put_number, put_place};

/// Adds bytes.
pub fn put(bytes: &[u8], out: &mut Vec<u8>) -> Result<(), AllocError>
    ensures { OnOk result (Adds out.old.items out.new.items bytes.now) }
{
    out.extend_from_slice(bytes)?;
    Ok(())
}

/// Adds a number between two texts.
pub fn put_between(
    before: &[u8],
    number: u32,
    after: &[u8],
    out: &mut Vec<u8>,
) -> Result<(), AllocError>
    ensures { OnOk result
        (Adds out.old.items out.new.items (between before.now number after.now)) }
{
    put(before, out)?;
    put_number(number, out)?;
    put(after, out)?;
    Ok(())
}

/// Adds a source as a sentence names it.
pub fn put_source_name(source: SourceAt, out: &mut Vec<u8>) -> Result<(), AllocError>
    ensures { OnOk result (Adds out.old.items out.new.items (source_name source)) }
{
    match source {
        SourceAt::Scope => put(b"the scope's source", out),
        SourceAt::At(place) => {
            put(b"the source of ", out)?;
            put_place(place, out)?;
            Ok(())
        }
    }
}
