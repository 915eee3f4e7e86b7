//! What nodes make of the completion of their child.
ghost use Rattle.start_laws.specs.Laws.{ImagesAreAllowed, JobsTakeTheirData, WantPasses};

/// What a node makes of its child's completion may be delivered for the node's own start, as seen
/// where the child saw a request: of adaptors, hops, `bulk` and `unstoppable`, of a let that picks
/// no body, and of an `ahead` whose second child has no value ([exec.adapt]).
pub fn images_are_allowed()
    ensures { ImagesAreAllowed }
{}

/// A node's job takes what its child completed with, and a let's pick too: no operand is wrong.
pub fn jobs_take_their_data()
    ensures { JobsTakeTheirData }
{}

/// Want of memory passes every adaptor, save a hop that is stopped, and no adaptor makes it of
/// another completion.
pub fn want_passes()
    ensures { WantPasses }
{}
