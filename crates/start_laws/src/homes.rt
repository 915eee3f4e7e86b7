//! What a hand is told of the homes of a node and of its children, and what it may put there.
ghost use Rattle.start_laws.specs.HoldingLaws.{HomesTell, HomesFit, NodesMayRest, PlacesTell, RequestsAreTold};

/// What lies in the home of a node that is held, in that of its done child, or in a rest, tells
/// whose start it shows, and that nothing of it rests on a request that wasn't told.
pub fn homes_tell()
    ensures { HomesTell }
{}

/// Which node is the receiver node, and which children run with the arguments of their parent:
/// those of lets and bulks that are no bodies and no parts, and the one that the receiver node's
/// start names.
pub fn places_tell()
    ensures { PlacesTell }
{}

/// A node that is held may keep its start, a rest with its child's parcel or without one, its own
/// completion, and so the image of its child's.
pub fn homes_fit()
    ensures { HomesFit }
{}

/// A node of the plan may rest with its child's parcel or without one. The receiver node may with
/// its child's parcel.
pub fn nodes_may_rest()
    ensures { NodesMayRest }
{}

/// Where no request was told of the source that a node hears, none was told of the one that its
/// children hear, save below a `when_all`. Below an `unstoppable` none ever is ([stoptoken]).
pub fn requests_are_told()
    ensures { RequestsAreTold }
{}
