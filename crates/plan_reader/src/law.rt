//! The limits of a plan file.
ghost use Rattle.std.specs.Prelude.{◌≡◌};
ghost use Rattle.plan_reader.specs.Levels.{LevelsSuffice};
ghost use Rattle.plan_reader.specs.declared.plan.TheConstants.{MOST_LEVELS};
ghost use Rattle.plan_reader.specs.declared.read.TheConstants.{MOST_PLAN_BYTES};

/// The limits in numbers.
pub fn limits()
    ensures bytes { MOST_PLAN_BYTES ≡ 1_048_576 }
    ensures levels { MOST_LEVELS ≡ 127 }
{}

/// The bound on the levels of a walk is none on plan files: no file that is JSON nests deeper, so a
/// walk of more levels finds the same.
pub fn levels_suffice()
    ensures { LevelsSuffice }
{}
