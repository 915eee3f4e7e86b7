//! The events: each is one atomic action of one hand on one word.

use crate::scope::ScopeWord;
use node_tree::NodeList;

/// The place of a node in a block.
#[derive(Clone, Copy, Debug, PartialEq, Eq)]
pub struct Place {
    pub block: u32,
    pub node: u32,
}

/// A place at one generation of its block: one run of its node.
#[derive(Clone, Copy, Debug, PartialEq, Eq)]
pub struct Name {
    pub block: u32,
    pub generation: u32,
    pub node: u32,
}

/// A stop source by its place: the scope's, or that of a node.
#[derive(Clone, Copy, Debug, PartialEq, Eq)]
pub enum SourceAt {
    Scope,
    At(Place),
}

/// A stop source at one generation of its block.
#[derive(Clone, Copy, Debug, PartialEq, Eq)]
pub enum SourceRef {
    Scope,
    Node(Name),
}

/// Where a node rests.
#[derive(Clone, Copy, Debug, PartialEq, Eq)]
pub enum Resting {
    Loop,
    Pool,
    Parked,
}

/// What one hand does to one word.
#[derive(Debug, Drop)]
pub enum Event {
    // the life of an operation's nodes
    Claim {
        block: u32,
    },
    Begin {
        place: Place,
    },
    Await {
        place: Place,
        children: NodeList,
    },
    Rest {
        place: Place,
        to: Resting,
    },
    Take {
        place: Place,
    },
    Finish {
        place: Place,
    },
    /// The place is the child's, the word its parent's.
    Report {
        place: Place,
    },
    Release {
        block: u32,
    },
    // stop sources and callbacks
    Arm {
        place: Place,
    },
    Look {
        source: SourceAt,
        after: Option<Place>,
    },
    Request {
        source: SourceAt,
        failure: bool,
    },
    Run {
        source: SourceAt,
        place: Place,
    },
    EndRun {
        place: Place,
    },
    Withdraw {
        place: Place,
    },
    WithdrawOwn {
        place: Place,
    },
    SealScan {
        source: SourceAt,
    },
    Skip {
        block: u32,
    },
    // the counting scope, and a callback that wakes its node
    Rouse {
        place: Place,
    },
    Enter,
    MarkUsed,
    Leave,
    Close,
    Join,
    Seal {
        expected: ScopeWord,
    },
}
