//! The kinds of data.

/// What a datum is.
#[derive(Clone, Copy, Debug, PartialEq, Eq)]
pub enum Kind {
    Int,
    Text,
    Row,
    MaybeInt,
    MaybeText,
}
