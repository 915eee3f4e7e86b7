//! What a picture shows of a trace.

/// What a picture shows of a trace. Entries are numbered from 1.
#[derive(Clone, Copy, Debug, PartialEq, Eq)]
pub struct Shown {
    /// The first entry that is shown. 0 is as 1.
    pub first: u32,
    /// The last entry that is shown. One past the end of the trace shows it to its end.
    pub last: u32,
    /// The entry that is marked as refused, where one is.
    pub refused: Option<u32>,
}
