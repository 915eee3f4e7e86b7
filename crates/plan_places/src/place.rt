//! The places of refusals, as texts.
ghost use Rattle.std.specs.Prelude.{◌≡◌, IfOk};
ghost use Rattle.plan_places.specs.Told.{at_path, own_keys, position_text};

use itoa::Buffer;
use pictures::text::put_all;
use std::alloc::{AllocError, Global};

/// The keys beside `root`.
pub(crate) fn own_keys(alloc: Global) -> Result<Vec<u8>, AllocError>
    ensures { IfOk result (λ text. text.items ≡ own_keys) }
{
    Vec::from_slice(alloc, b" in the plan's own keys")
}

/// A line and a column.
pub(crate) fn position_text(
    alloc: Global,
    line: usize,
    column: usize,
) -> Result<Vec<u8>, AllocError>
    ensures { IfOk result (λ text. text.items ≡ position_text line column) }
{
    let mut first = Buffer::new();
    let mut second = Buffer::new();
    let mut text = Vec::new(alloc);
    let pieces = [
        " at line ",
        first.format(line as u64),
        ", column ",
        second.format(column as u64),
    ];
    put_all(&pieces, &mut text)?;
    Ok(text)
}

/// A node, by its path.
pub(crate) fn at_path(alloc: Global, path: &[u8]) -> Result<Vec<u8>, AllocError>
    ensures { IfOk result (λ text. text.items ≡ at_path path.now) }
{
    let mut text = Vec::from_slice(alloc, b" at ")?;
    text.extend_from_slice(path)?;
    Ok(text)
}
