//! What a step lists.

/// One step on a word: which word, what it read, and what it left.
#[derive(Clone, Copy, Debug, PartialEq, Eq)]
pub struct Seen {
    /// The word's index in the table.
    pub index: usize,
    /// What stood there when the step came.
    pub read: u64,
    /// What stood there after it.
    pub left: u64,
}
