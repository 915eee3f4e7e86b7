//! Whether a stop request reaches a node while it runs.

/// What a node's nearest stop source may show it ([exec.get.stop.token], [stoptoken]).
#[derive(Clone, Copy, Debug, PartialEq, Eq)]
pub enum StopState {
    /// No request stands while the node runs.
    Never,
    /// A request may come at any moment.
    May,
    /// The request was made before the operation was started.
    Stands,
}
