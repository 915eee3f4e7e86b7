//! How many futures are kept.

/// At most so many futures are kept at once.
pub const MOST_FUTURES: u32 = 64;
