//! What follows for operation states ([exec.opstate]).
ghost use Rattle.table_laws.specs.Laws.{DoneIsOver, ParentsWait, ReleasesQuiet};
ghost use Rattle.table_laws.specs.Bounds.{EndWithAll, FinishWithAll, HoldWithAll, RestWithAll};
ghost use Rattle.table_laws.specs.Lasting.{DoneForGood};
ghost use Rattle.table_laws.specs.Noted.{NotedIsOpen};

use table_rules::Cargo;

/// What is done isn't finished again while its block is open, and what a call finished is done for
/// good: no hand gets the node again at its generation. An operation completes after its
/// children, and its block is given back only when nothing touches it any more.
pub fn operations_end_once<P: Cargo>()
    ensures done_is_over { DoneIsOver P.Cargo }
    ensures done_for_good { DoneForGood P.Cargo }
    ensures parents_wait { ParentsWait P.Cargo }
    ensures releases_quiet { ReleasesQuiet P.Cargo }
{}

/// As many children of a node are done as its last await named, unless it waits for them: so a node
/// that is done finished with an item that asks for no more, and none is held or rests with less.
pub fn parents_end_with_all<P: Cargo>()
    ensures ended { EndWithAll P.Cargo }
    ensures finishes { FinishWithAll P.Cargo }
    ensures holds { HoldWithAll P.Cargo }
    ensures rests { RestWithAll P.Cargo }
{}

/// An operation that a hand claimed and began is open until some hand gives its block back: the
/// word of its block says so, or a hand lists the step that left it at a later generation, or
/// retired.
pub fn noted_operations_are_open<P: Cargo>()
    ensures { NotedIsOpen P.Cargo }
{}
