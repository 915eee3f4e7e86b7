//! The limits of a wheel.

/// The most places of a wheel.
pub const MOST_PLACES: u32 = 262_400;

/// The most turns from the present turn to the due turn of a pair that is added.
pub const MOST_TURNS: u32 = 1_000_000;

/// The last turn of a wheel: 2^62.
pub const LAST_TURN: u64 = 1 << 62;
