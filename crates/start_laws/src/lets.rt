//! What holds of the bodies of lets ([exec.let]).
ghost use Rattle.start_laws.specs.LetLaws.{BodiesMayBegin, BodiesAreAllowed};

/// The body that is picked by the data of the child's completion may begin with these data. Where
/// no request is known, the child must have seen none.
pub fn bodies_may_begin()
    ensures { BodiesMayBegin }
{}

/// What a body completes with may be delivered for the let's own start.
pub fn bodies_are_allowed()
    ensures { BodiesAreAllowed }
{}
