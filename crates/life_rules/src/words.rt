//! The words of a block and of its places, as they read.

/// Whether a block can be claimed.
#[derive(Clone, Copy, Debug, PartialEq, Eq)]
pub enum BlockState {
    /// No operation lives in it.
    Free,
    /// An operation lives in it.
    Open,
    /// Its generations are used up: it isn't given again.
    Retired,
}

/// A block's word: how often the block was given back, and what it is now.
#[derive(Clone, Copy, Debug, PartialEq, Eq)]
pub struct BlockWord {
    pub generation: u32,
    pub state: BlockState,
}

/// A place's control word: how far the operation state of its node has come.
#[derive(Clone, Copy, Debug, PartialEq, Eq)]
pub enum ControlWord {
    /// Not begun at this generation.
    Idle,
    /// Begun, with so many children still to report. With none, a hand holds the node.
    Busy(u32),
    /// Waits to be taken by the run loop.
    ReadyLoop,
    /// Waits to be taken by a hand of the pool.
    ReadyPool,
    /// Waits until it is roused or taken by the run loop.
    Parked,
    /// Completed.
    Done,
}

/// A place's callback word: what has become of the node's stop callback ([stopcallback]).
#[derive(Clone, Copy, Debug, PartialEq, Eq)]
pub enum CallbackPhase {
    /// None was registered at this generation.
    Never,
    /// Registered.
    Armed,
    /// A hand runs it.
    Running,
    /// It has run.
    Ran,
    /// Removed before it ran, or from inside its own run.
    Removed,
}

/// A source word: the bits of a stop source ([stopsource]).
#[derive(Clone, Copy, Debug, PartialEq, Eq)]
pub struct Bits {
    /// A stop was requested.
    pub requested: bool,
    /// The request was made because a child failed.
    pub failed: bool,
    /// The hand that made the request has looked at each registered callback.
    pub scanned: bool,
}
