//! Where the parts of a line end, and whether it is the line of its record.
ghost use Rattle.std.specs.Prelude.{◌≡◌, ◌≢◌, ◌≤◌, ℕ, List, ◌++◌, ◌∷◌, decimal, MatchOption};
ghost use Rattle.exec_value.specs.Bytes.{blank};
ghost use Rattle.record_lines.specs.Lines.{HasNoLineFeed};
ghost use Rattle.part_lines.specs.Lines.{BeginsLine, LineEndsAt, Shows};
ghost use Rattle.part_lines.specs.declared.limits.TheConstants.{MOST_LINES};

use crate::limits::MOST_WORDS;
use crate::sort::{Sort, sort_of};
use itoa::Buffer;
use memchr::memchr;

/// Where the parts of a line end, and of which sort its words are.
#[derive(Clone, Copy, Debug)]
pub struct Said {
    /// How many digits its number has.
    pub head: usize,
    /// How many bytes it has, the line feed at its end with them.
    pub length: usize,
    /// Of which sort its words are.
    pub sort: Sort,
}

/// Where the first line feed is.
#[inline(always)]
pub(crate) fn line_end(bytes: &[u8]) -> Option<usize>
    ensures { MatchOption result (HasNoLineFeed bytes.now) (LineEndsAt bytes.now) }
{
    memchr(b'\n', bytes)
}

/// The words behind this number and a blank, where a line begins so.
#[inline(always)]
fn words_of(line: &[u8], number: u64) -> Option<&[u8]>
    ensures { MatchOption result
        ((words : List ℕ) → line.now ≢ decimal number ++ blank ∷ words)
        (λ words. line.now ≡ decimal number ++ blank ∷ words.now) }
{
    let mut buffer = Buffer::new();
    let digits = buffer.format(number).as_bytes();
    let Some(rest) = line.strip_prefix(digits) else {
        return None;
    };
    let Some((first, words)) = rest.split_first() else {
        return None;
    };
    if *first == b' ' { Some(words) } else { None }
}

/// What the line says whose line feed is the first one, at this place. `None` says that it isn't
/// the line of the record of this number.
#[inline(always)]
pub(crate) fn said_at(bytes: &[u8], end: usize, number: u64) -> Option<Said>
    requires ends { LineEndsAt bytes.now end }
    requires few { number ≤ MOST_LINES }
    ensures { MatchOption result (¬ BeginsLine number bytes.now)
        (λ said. (words : List ℕ) × Shows bytes.now number said words) }
{
    let Some(words) = words_of(&bytes[..end], number) else {
        return None;
    };
    if words.len() > MOST_WORDS {
        return None;
    }
    match sort_of(words) {
        Some(sort) => Some(Said {
            head: end - words.len() - 1,
            length: end + 1,
            sort,
        }),
        None => None,
    }
}
