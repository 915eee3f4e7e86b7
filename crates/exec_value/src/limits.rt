//! The limits of version 1.

/// The most bytes of a text.
pub const TEXT_BYTES: usize = 4_096;

/// The most numbers of a row.
pub const NUMBERS: usize = 4_096;

/// The most data of one value.
pub const DATA: usize = 64;

/// The most bytes of an error name.
pub const ERROR_NAME_BYTES: usize = 64;

/// The most bytes of a record's line.
pub const LINE_BYTES: usize = 131_072;

/// A text of at most so many bytes stands in place and needs no allocation: each number in decimal
/// does, and each error that a job makes, with the index of an element behind it.
pub const INLINE_BYTES: usize = 22;

/// A list of at most so many data stands in place and needs no allocation.
pub const INLINE_DATA: usize = 1;
