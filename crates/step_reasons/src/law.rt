//! What is true of all reasons. The calls do nothing. Their contracts are the laws.
ghost use Rattle.step_reasons.specs.Laws.{RefusedStepsHaveReasons, ReasonsAreSo, FactsForbid};

/// A step that may not be taken has a reason, and no other has one.
pub fn refused_steps_have_reasons()
    ensures { RefusedStepsHaveReasons }
{}

/// What a reason says is so in the state.
pub fn reasons_are_so()
    ensures { ReasonsAreSo }
{}

/// In each sound state of the same tree in which it is so the step may not be taken.
pub fn facts_forbid()
    ensures { FactsForbid }
{}
