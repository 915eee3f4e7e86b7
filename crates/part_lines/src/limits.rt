//! How much a part may have.

/// The most lines of a part.
pub const MOST_LINES: u64 = 999_999_999;

/// The most bytes that a line has behind its number and the blank, its line feed not counted: 8
/// MiB. Each line that a run writes has fewer.
pub const MOST_WORDS: usize = 8_388_608;

/// The most bytes that are held: those of a longest line, with room for its number.
pub(crate) const MOST_HELD: usize = MOST_WORDS + 32;

/// How many bytes are held at first.
pub(crate) const FIRST_HELD: usize = 65_536;
