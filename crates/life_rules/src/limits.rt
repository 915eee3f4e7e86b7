//! The limits of a table.

/// The most blocks of a table.
pub const MOST_BLOCKS: u32 = 256;

/// The most hands that work on a table.
pub const MOST_HANDS: u32 = 32;
