//! What follows for operation states ([exec.opstate]).
ghost use Rattle.life_laws.specs.Laws.{FinishesOnce, StaysDone, ParentsWait, ReleasesQuiet};

/// An operation completes at most once, after its children, and its block is given back only when
/// nothing touches it any more.
pub fn operations_end_once()
    ensures finishes_once { FinishesOnce }
    ensures stays_done { StaysDone }
    ensures parents_wait { ParentsWait }
    ensures releases_quiet { ReleasesQuiet }
{}
