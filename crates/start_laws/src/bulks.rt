//! What holds of the parts of a bulk ([exec.bulk]).
ghost use Rattle.start_laws.specs.BulkLaws.{PartsMakeShares, PartsMayBegin, SharesAreMade};

/// A part may begin with its share of the row that the bulk's child completed with. Where no
/// request is known, the child must have seen none.
pub fn parts_may_begin()
    ensures { PartsMayBegin }
{}

/// A part completes with what the job makes of its share, and all shares together, one after the
/// other, make what the job makes of the row.
pub fn parts_make_the_row()
    ensures shares { PartsMakeShares }
    ensures row { SharesAreMade }
{}
