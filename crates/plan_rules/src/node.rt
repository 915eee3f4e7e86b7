//! The nodes of a sender expression.
use exec_job::Job;
use exec_value::{Data, Kind, Txt};
use node_tree::{Context, NodeList};

/// The number of a node. Children have smaller numbers than their parent.
pub type NodeId = u32;

/// What `read_env` asks the receiver's environment ([exec.read.env]).
#[derive(Clone, Copy, Debug, PartialEq, Eq)]
pub enum Query {
    /// Whether a stop was requested ([exec.get.stop.token]).
    Stop,
    /// The record's number.
    Record,
}

/// A node of a sender expression.
#[derive(Debug, Drop)]
pub enum Node {
    /// The arguments themselves.
    Input,
    /// [exec.just]
    Just(Data),
    JustError(Txt),
    JustStopped,
    /// [exec.schedule]
    Schedule(Context),
    /// Completes after so many turns of the run loop.
    Delay(u32),
    /// [exec.read.env]
    ReadEnv(Query),
    /// [exec.then]
    Then {
        child: NodeId,
        job: Job,
    },
    UponError {
        child: NodeId,
        job: Job,
    },
    UponStopped {
        child: NodeId,
        job: Job,
    },
    /// [exec.let]: `pick` gives the number of the body that runs.
    LetValue {
        child: NodeId,
        pick: Job,
        bodies: NodeList,
    },
    LetError {
        child: NodeId,
        pick: Job,
        bodies: NodeList,
    },
    LetStopped {
        child: NodeId,
        pick: Job,
        bodies: NodeList,
    },
    /// [exec.starts.on]
    StartsOn {
        on: Context,
        child: NodeId,
    },
    /// [exec.continues.on]
    ContinuesOn {
        child: NodeId,
        on: Context,
    },
    /// [exec.stopped.opt]
    StoppedAsOptional {
        child: NodeId,
        of: Kind,
    },
    /// [exec.stopped.err]
    StoppedAsError {
        child: NodeId,
        error: Txt,
    },
    /// [exec.bulk], over the elements of one row.
    Bulk {
        child: NodeId,
        job: Job,
    },
    /// [exec.when.all]
    WhenAll {
        children: NodeList,
    },
    /// One of the eight parts into which a bulk cuts its row.
    Part {
        bulk: NodeId,
        part: u32,
    },
    /// No stop request reaches the child.
    Unstoppable {
        child: NodeId,
    },
    /// Spawns `first` in the scope, runs `second`, and joins the two (P3149, `spawn_future`).
    Ahead {
        first: NodeId,
        second: NodeId,
    },
}
