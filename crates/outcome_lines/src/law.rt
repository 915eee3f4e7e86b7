//! A law of the lines.
ghost use Rattle.outcome_lines.specs.OneToOne.{TextNamesOutcomes};

/// The text of outcomes whose errors have error names is one to one: its bytes name the outcomes.
/// The call does nothing. Its contract is the law.
pub fn text_names_outcomes()
    ensures { TextNamesOutcomes }
{}
