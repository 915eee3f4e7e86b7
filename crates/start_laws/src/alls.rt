//! What several children complete with together.
ghost use Rattle.start_laws.specs.AllEnds.{AllsMayEnd};
ghost use Rattle.start_laws.specs.AllLaws.{AheadsAreAllowed, AllsAreAllowed};
ghost use Rattle.start_laws.specs.RoomLaws.{RoomIsThere};

/// A `when_all` may complete with the values of its children, joined in order. Where one failed,
/// it may complete with that one's error; where that one stopped, with any error of the others,
/// else stopped ([exec.when.all]).
pub fn alls_are_allowed()
    ensures { AllsAreAllowed }
{}

/// So a `when_all` may complete with what two walks over its children's parcels join: the values
/// and the failures that saw no request, and then the other failures. Where no request is known
/// above it, it saw none.
pub fn alls_may_end()
    ensures { AllsMayEnd }
{}

/// Where the second child of an `ahead` has a value, the `ahead` may complete with the failure of
/// the first, which was spawned for it, or with both values (P3149, `spawn_future`).
pub fn aheads_are_allowed()
    ensures { AheadsAreAllowed }
{}

/// There is room for the values that a node joins. In a small plan all that a node may deliver
/// stands in place, save errors with long names.
pub fn room_is_there()
    ensures { RoomIsThere }
{}
