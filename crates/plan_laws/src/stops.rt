//! What a stop request that may come changes ([stoptoken]).
ghost use Rattle.plan_laws.specs.Laws.{MayCovers};

/// Where a stop request may come, all stays allowed that is allowed where none comes or one
/// stands.
pub fn may_covers()
    ensures { MayCovers }
{}
