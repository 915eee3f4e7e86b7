//! The numbers of a run, as they are.
ghost use Rattle.std.specs.Prelude.{◌≡◌};

use crate::window::MOST_WITH_AHEAD;

/// At most 192 records of a plan with an `ahead` are worked on at once.
pub fn limits_are()
    ensures { MOST_WITH_AHEAD ≡ 192 }
{}
