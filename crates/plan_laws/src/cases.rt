//! What is said of a node follows from what is said of its children.
ghost use Rattle.plan_laws.specs.Laws.{AllowedByCase, SettledByCase, CalmByCase};

/// In a list whose nodes stand behind their children, a node's case decides what it may complete
/// with, what it settles to and whether it is calm.
pub fn nodes_follow_cases()
    ensures allowed { AllowedByCase }
    ensures settled { SettledByCase }
    ensures calm { CalmByCase }
{}
