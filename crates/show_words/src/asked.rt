//! What a list of words may ask for.

/// The greatest number of an entry.
pub const MOST_ENTRY: u32 = 999_999_999;

/// Which rows a picture of a trace has, and whether it marks the entry that is refused.
#[derive(Clone, Copy, Debug, PartialEq, Eq)]
pub struct Rows {
    /// Whether the entry that the machine refuses is marked.
    pub refused: bool,
    /// The first entry that is shown, from 1 to `MOST_ENTRY`.
    pub first: u32,
    /// The last entry that is shown, not before the first; `MOST_ENTRY` shows the trace to its end.
    pub last: u32,
}

/// A file, and what is asked of it.
#[derive(Clone, Copy, Debug, PartialEq, Eq)]
pub enum Asked<'a> {
    /// `plan FILE`: the plan as a picture.
    Plan { file: &'a str },
    /// `trace FILE`: the trace as a picture.
    Trace { file: &'a str, rows: Rows },
    /// `why FILE`: why an entry of the trace is refused, or what is open at its end.
    Why { file: &'a str },
    /// `write FILE`: the plan of a text in the notation, as JSON.
    Write { file: &'a str },
    /// `text FILE`: the plan in the notation.
    Text { file: &'a str },
}
