//! What a block has.
ghost use Rattle.std.specs.Option.{option_copied};
ghost use Rattle.std.specs.Prelude.{◌≡◌, ◌<◌, vec_len, length, is_none, None, Some, slice_index_or, slice_set};

use exec_value::Datum;

/// An operation that was started: it is evaluated once its completion is asked for.
#[derive(Drop)]
pub struct Started {
    pub(crate) number: u32,
    pub(crate) datum: Datum,
    /// Whether a stop was requested before.
    pub(crate) asked: bool,
}

/// The operation of a block.
pub fn at_block(blocks: &[Option<Started>], at: usize) -> Option<&Started>
    requires { at < length blocks.now }
    ensures { option_copied result ≡ slice_index_or blocks.now at None }
{
    blocks[at].as_ref()
}

/// Makes a block free.
pub fn free_block(blocks: &mut Vec<Option<Started>>, at: usize)
    requires { at < vec_len blocks.old }
    ensures items { blocks.new.items ≡ slice_set blocks.old.items at None }
{
    drop(blocks[at].take());
}

/// Puts an operation in a block.
pub fn put_block(blocks: &mut Vec<Option<Started>>, at: usize, started: Started)
    requires { at < vec_len blocks.old }
    ensures items { blocks.new.items ≡ slice_set blocks.old.items at (Some started) }
{
    drop(blocks[at].replace(started));
}

/// Whether a block is free.
pub fn is_free(blocks: &[Option<Started>], at: usize) -> bool
    requires { at < length blocks.now }
    ensures { result ≡ is_none (slice_index_or blocks.now at None) }
{
    blocks[at].is_none()
}
