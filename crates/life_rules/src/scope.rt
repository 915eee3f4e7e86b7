//! The word of a counting scope, and how it reads (P3149, [exec.scope]).

/// What a scope's word says ([exec.scope.simple.counting]).
#[derive(Clone, Copy, Debug, PartialEq, Eq)]
pub enum ScopeState {
    Unused,
    Open,
    OpenAndJoining,
    Closed,
    ClosedAndJoining,
    UnusedAndClosed,
    Joined,
}

/// A scope's word: four bits, which are never cleared, and the count of associations.
#[derive(Clone, Copy, Debug, PartialEq, Eq)]
pub struct ScopeWord {
    pub used: bool,
    pub closed: bool,
    pub joining: bool,
    pub joined: bool,
    pub count: u32,
}

/// Why a scope turned an association away.
#[derive(Clone, Copy, Debug, PartialEq, Eq)]
pub enum Refused {
    Closed,
    Joined,
    /// So many associations were counted, and the scope takes no more.
    AtMost(u32),
}
