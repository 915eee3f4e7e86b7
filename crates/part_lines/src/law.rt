//! That the lines of outcomes are lines of a part, and that a part's lines are known by its text.
ghost use Rattle.std.specs.Prelude.{List, All};
ghost use Rattle.exec_value.specs.declared.outcome.Outcome.{Outcome};
ghost use Rattle.part_lines.specs.Lines.{HasOneReading};
ghost use Rattle.part_lines.specs.Outcomes.{CountsAgree, IsWritable, LinesAreText, OutcomesArePart};

/// The text of outcomes is a part, and the lines of what outcomes say are their text under any
/// number. The call does nothing. Its contract is the law.
pub fn outcomes_are_parts()
    ensures part { OutcomesArePart }
    ensures text { LinesAreText }
    ensures counts { (outcomes : List Outcome) →
        All IsWritable outcomes → CountsAgree outcomes }
{}

/// The text of a part is that of one list of lines. The call does nothing. Its contract is the law.
pub fn parts_have_one_reading()
    ensures { HasOneReading }
{}
