//! How children begin, where they stand, and how many a node must have begun.
ghost use Rattle.start_laws.specs.HoldingLaws.{ChildrenStand};
ghost use Rattle.start_laws.specs.Laws.{ChildrenMayBegin, FewAreBegun};

/// A child that runs with its parent's arguments may begin with them, and so may the child that a
/// start of the receiver node names ([exec.get.env]).
pub fn children_may_begin()
    ensures { ChildrenMayBegin }
{}

/// In the plan's tree the children of a node stand below it: those that run with its arguments, the
/// bodies of a let, the parts of a bulk, and the child that a start of the receiver node names.
pub fn children_stand()
    ensures { ChildrenStand }
{}

/// A node that is done must have begun one child at most, where it awaits one at a time; and none
/// where it has none, where it is stopped by a request, or where it wants memory. A rest asks for
/// one only where it keeps the child's parcel.
pub fn few_are_begun()
    ensures { FewAreBegun }
{}
