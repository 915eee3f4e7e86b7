//! Where a node runs.

/// Where a node runs.
#[derive(Clone, Copy, Debug, PartialEq, Eq)]
pub enum Context {
    /// The run loop ([exec.run.loop]).
    Loop,
    /// The pool of workers.
    Pool,
}
