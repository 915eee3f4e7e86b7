//! What plain evaluation gives.
ghost use Rattle.plan_laws.specs.Laws.{AllowedHasMemory, CalmIsSettled};
ghost use Rattle.plan_laws.specs.Laws.{SettledHasMemory, SettledIsAllowed};

/// Plain evaluation gives a completion that is allowed where no stop comes; where a stop was asked
/// before the start, it gives one that is allowed where a request stands. Neither it nor any
/// completion that is allowed is want of memory.
pub fn settled_is_allowed()
    ensures allowed_has_memory { AllowedHasMemory }
    ensures settled_is_allowed { SettledIsAllowed }
    ensures settled_has_memory { SettledHasMemory }
{}

/// Where no `when_all` that is evaluated has a child that fails, plain evaluation gives the one
/// completion that is allowed where no stop comes.
pub fn calm_is_settled()
    ensures { CalmIsSettled }
{}
