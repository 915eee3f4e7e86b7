//! How large a plan may be.

/// The most nodes of a plan, parts of bulks counted.
pub const MOST_PLAN_NODES: usize = 1_024;

/// The most nodes of a plan of version 1.
pub const MOST_FIRST_VERSION_NODES: usize = 256;

/// The most nodes on a path from a node down to a leaf, parts of bulks counted.
pub const MOST_DEPTH: u32 = 56;

/// The fewest children of a `when_all`.
pub const FEWEST_CHILDREN: usize = 2;

/// The most children of a `when_all`.
pub const MOST_CHILDREN: usize = 64;

/// The most bodies of a `let_value`, a `let_error` or a `let_stopped`; the fewest are one.
pub const MOST_BODIES: usize = 16;

/// The parts into which a bulk cuts its row. They have the numbers just before its own.
pub const BULK_PARTS: u32 = 8;

/// The most turns of a `delay`.
pub const MOST_TURNS: u32 = 1_000_000;

/// The greatest number of the record after which a plan asks for a stop.
pub const MOST_STOP_AFTER: u32 = 1_000_000;
