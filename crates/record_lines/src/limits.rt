//! The bytes that end a line, and how much of a stream is read.

/// LF, the byte that ends a line.
pub const LINE_FEED: u8 = b'\n';

/// CR, the byte that is no part of a line where it is its last one.
pub const CARRIAGE_RETURN: u8 = b'\r';

/// The most bytes of a line that can be a record, a carriage return at its end not counted.
pub const MOST_LINE: usize = 131_072;

/// The most records of a stream.
pub const MOST_RECORDS: usize = 1_000_000;

/// The most bytes of a stream.
pub const MOST_BYTES: usize = 268_435_456;
