//! What the step of a node needs that awaits one child.
ghost use Rattle.start_laws.specs.StepLaws.{StepsMayEnd};

/// Where the one child was reported that a node awaits, or the one that the start of the receiver
/// node names, the node may keep its parcel; and a node that makes an image of it may end
/// ([exec.recv]).
pub fn steps_may_end()
    ensures { StepsMayEnd }
{}
