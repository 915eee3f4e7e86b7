//! The jobs, and what they may be applied to.
ghost use Rattle.std.specs.Prelude.{◌≡◌};

use crate::kinds::{are_numbers, are_texts, is_int, is_maybe_int, is_maybe_text, is_row, is_text};
use exec_value::{Data, Kind, Txt};

/// An operation on data. Its arithmetic is on whole numbers, and a result that an `i64` doesn't
/// hold is the error `overflow`.
#[derive(Clone, Debug, Drop, PartialEq, Eq)]
pub enum Job {
    /// x + n, for a number x.
    Add(i64),
    /// x - n.
    Sub(i64),
    /// x * n.
    Mul(i64),
    /// x / n, cut towards zero. The error `zero-divisor` where n is 0.
    Div(i64),
    /// -x.
    Neg,
    /// x where it is from `lo` to `hi`, and else the error `out-of-range`. Where `lo` is above
    /// `hi` every x is out of range.
    Within { lo: i64, hi: i64 },
    /// x + its index in a row. It takes no data.
    Index,
    /// The error of this name, for any data. The name is an error name.
    Fail(Txt),
    /// The row of the numbers 0 to x - 1. The error `out-of-range` where x is below 0 or above
    /// 4,096.
    Iota,
    /// The exact sum of all numbers of ints and rows, 0 for none.
    Sum,
    /// The text and then this one. The error `too-long` above 4,096 bytes.
    Append(Txt),
    /// The texts one after the other. The error `too-long` above 4,096 bytes.
    Join,
    /// How many bytes a text has, or how many numbers a row.
    Length,
    /// The number that a text shows as an int record. The error `not-a-number` for another text.
    Parse,
    /// The number in decimal, as a text.
    Show,
    /// These data, for any. Each is an int, a text or a row.
    Give(Data),
    /// The datum at this place, of more data than that. The place is at most 63.
    At(u32),
    /// The number that is held, or this one where there is none.
    IntOr(i64),
    /// The text that is held, or this one where there is none.
    TextOr(Txt),
    /// The data as they are.
    Pass,
}

impl Job {
    ghost use Rattle.exec_job.specs.Takes.{takes, is_element};

    /// Whether the job may be applied to data of these kinds.
    pub fn takes(&self, kinds: &[Kind]) -> bool
        ensures { result ≡ takes self.now kinds.now }
    {
        match self {
            Job::Add(_) | Job::Sub(_) | Job::Mul(_) | Job::Div(_) => is_int(kinds),
            Job::Neg | Job::Within { .. } | Job::Iota | Job::Show => is_int(kinds),
            Job::Append(_) | Job::Parse => is_text(kinds),
            Job::Length => is_text(kinds) || is_row(kinds),
            Job::Sum => are_numbers(kinds),
            Job::Join => are_texts(kinds),
            Job::IntOr(_) => is_maybe_int(kinds),
            Job::TextOr(_) => is_maybe_text(kinds),
            Job::At(place) => (*place as usize) < kinds.len(),
            Job::Fail(_) | Job::Give(_) | Job::Pass => true,
            Job::Index => false,
        }
    }

    /// Whether the job is also an operation on one number of a row at its index.
    pub fn is_element(&self) -> bool
        ensures { result ≡ is_element self.now }
    {
        match self {
            Job::Add(_) | Job::Sub(_) | Job::Mul(_) | Job::Div(_) => true,
            Job::Neg | Job::Within { .. } | Job::Index => true,
            _ => false,
        }
    }
}
