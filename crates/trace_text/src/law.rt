//! Laws of the texts, and what the limits are as numbers.
ghost use Rattle.std.specs.Prelude.{◌≡◌};
ghost use Rattle.trace_text.specs.Laws.{TextsAreReadBack, TracesHaveOneText, SchedulesHaveOneText};
ghost use Rattle.trace_text.specs.declared.limits.TheConstants.{NODES, BLOCKS, HANDS, ASSOCIATIONS, ENTRIES, FILE_BYTES};

/// The text of a trace is read as that trace. The call does nothing. Its contract is the law.
pub fn texts_are_read_back()
    ensures { TextsAreReadBack }
{}

/// A text that is read as a trace or as a schedule is the text of that, so each has one text alone.
/// The call does nothing. Its contract is the law.
pub fn each_has_one_text()
    ensures traces { TracesHaveOneText }
    ensures schedules { SchedulesHaveOneText }
{}

/// The limits of a text are these numbers. The call does nothing. Its contract is the law.
pub fn limits_are_told()
    ensures nodes { NODES ≡ 128 }
    ensures blocks { BLOCKS ≡ 8 }
    ensures hands { HANDS ≡ 8 }
    ensures associations { ASSOCIATIONS ≡ 65_535 }
    ensures entries { ENTRIES ≡ 10_000 }
    ensures bytes { FILE_BYTES ≡ 1_048_576 }
{}
