//! What nodes complete with by themselves.
ghost use Rattle.start_laws.specs.Laws.{LeavesAreAllowed, StopsAreAllowed};

/// What a factory completes with may be delivered for its start, and so may what a part of a bulk
/// makes of its share ([exec.factories], [exec.bulk]).
pub fn leaves_are_allowed()
    ensures { LeavesAreAllowed }
{}

/// A hop, a delay and a `when_all` may complete stopped where a request was made before the
/// operation was started, or where they saw one ([exec.schedule], [exec.when.all]).
pub fn stops_are_allowed()
    ensures { StopsAreAllowed }
{}
