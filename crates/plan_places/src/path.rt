//! The paths of nodes in a plan file, from its root on: `root.children[1].child`.
ghost use Rattle.std.specs.Prelude.{◌≡◌, IfOk};
ghost use Rattle.plan_places.specs.Paths.{at_item, at_key, at_step, key_name};

use itoa::Buffer;
use pictures::text::put_all;
use std::alloc::{AllocError, Global};

/// The keys of nodes below a node.
#[derive(Clone, Copy)]
pub(crate) enum Key {
    Child,
    First,
    Second,
    Children,
    Bodies,
}

impl Key {
    pub(crate) fn name(self) -> &'static str
        ensures { result.now ≡ key_name self }
    {
        match self {
            Key::Child => "child",
            Key::First => "first",
            Key::Second => "second",
            Key::Children => "children",
            Key::Bodies => "bodies",
        }
    }
}

/// The path of the node or the array at a key.
pub(crate) fn at_key(alloc: Global, path: &[u8], key: Key) -> Result<Vec<u8>, AllocError>
    ensures { IfOk result (λ text. text.items ≡ at_key path.now key) }
{
    let mut text = Vec::from_slice(alloc, path)?;
    put_all(&[".", key.name()], &mut text)?;
    Ok(text)
}

/// The path of a node in an array, which are numbered from 0.
pub(crate) fn at_item(alloc: Global, path: &[u8], index: u64) -> Result<Vec<u8>, AllocError>
    ensures { IfOk result (λ text. text.items ≡ at_item path.now index) }
{
    let mut buffer = Buffer::new();
    let mut text = Vec::from_slice(alloc, path)?;
    put_all(&["[", buffer.format(index), "]"], &mut text)?;
    Ok(text)
}

/// The path of a node at a key, or in the array there.
pub(crate) fn at_step(
    alloc: Global,
    path: &[u8],
    key: Key,
    index: Option<u64>,
) -> Result<Vec<u8>, AllocError>
    ensures { IfOk result (λ text. text.items ≡ at_step path.now key index) }
{
    let text = at_key(alloc, path, key)?;
    match index {
        None => Ok(text),
        Some(index) => at_item(alloc, &text, index),
    }
}
