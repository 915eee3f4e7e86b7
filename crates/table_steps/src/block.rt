//! What a claim answers.

/// A block at one generation: the room of one operation.
#[derive(Clone, Copy, Debug, PartialEq, Eq)]
pub struct Block {
    pub index: u32,
    pub generation: u32,
}
