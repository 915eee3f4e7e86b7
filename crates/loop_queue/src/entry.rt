//! What stands in the queue, and what a drain comes to.

use life_rules::Name;

/// A name in the queue: which post it came through, and how many that post had posted before.
#[derive(Clone, Copy, Debug, PartialEq, Eq)]
pub struct Entry {
    pub post: u32,
    pub count: u64,
    pub name: Name,
}

/// What a drain came to.
#[must_use]
#[derive(Clone, Copy, Debug, PartialEq, Eq)]
pub enum Drained {
    /// So many names were moved, fewer than the queue has room for, and then it was read as empty.
    Emptied(u32),
    /// As many names were moved as the queue has room for.
    Most,
    /// So many names were moved, and there was no memory for more. The next stays in the queue.
    NoMemory(u32),
}
