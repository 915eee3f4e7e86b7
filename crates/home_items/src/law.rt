//! What follows from the starts and parcels that environments and items keep.
ghost use Rattle.home_items.specs.Laws.{CollectedIsAllowed, KindsGoDown, SharesMakeTheRow};

/// What a receiver node keeps of the child that its start names is want of memory, or allowed for
/// that child with the start's own arguments and record number: where the request stood before the
/// operation was started, where one was seen, or where there was none.
pub fn collected_is_allowed()
    ensures { CollectedIsAllowed }
{}

/// Where the kinds of a plan match, what goes on below a start has arguments of its kinds: no step
/// has to test them.
pub fn kinds_go_down()
    ensures { KindsGoDown }
{}

/// The shares of a row, one after the other, make the row.
pub fn shares_make_the_row()
    ensures { SharesMakeTheRow }
{}
