//! The limits of a stream, and the bytes that end a line, as numbers.
ghost use Rattle.std.specs.Prelude.{◌≡◌};
ghost use Rattle.record_lines.specs.declared.limits.TheConstants.{LINE_FEED, CARRIAGE_RETURN, MOST_LINE, MOST_RECORDS, MOST_BYTES};

/// A line ends at byte 10, and byte 13 before that is no part of it. A record has at most 131,072
/// bytes, and a stream at most 1,000,000 records and 268,435,456 bytes. The call does nothing. Its
/// contract is the law.
pub fn limits_of_streams()
    ensures line_feed { LINE_FEED ≡ 10 }
    ensures carriage_return { CARRIAGE_RETURN ≡ 13 }
    ensures line { MOST_LINE ≡ 131_072 }
    ensures records { MOST_RECORDS ≡ 1_000_000 }
    ensures bytes { MOST_BYTES ≡ 268_435_456 }
{}
