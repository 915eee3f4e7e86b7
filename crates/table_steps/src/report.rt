//! What a report answers.

/// What a report found.
#[derive(Clone, Copy, Debug, PartialEq, Eq)]
pub enum Report {
    /// The parent waited for this child alone: the hand holds it now.
    Last,
    /// The parent waits for others.
    Others,
}
