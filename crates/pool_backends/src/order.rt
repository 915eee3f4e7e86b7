//! The order in which a backend hands out its names.

/// Which of the pending names goes out next.
#[derive(Clone, Copy, Debug, PartialEq, Eq)]
pub enum Order {
    /// The one that was submitted first.
    Fifo,
    /// The one that was submitted last.
    Lifo,
}
