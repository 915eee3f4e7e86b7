//! The limits of a table as numbers.
ghost use Rattle.std.specs.Prelude.{◌≡◌};

use crate::frame::MOST_ASSOCIATIONS;

/// What the limits are: definitions and proofs cite them by name.
pub fn limits_are_so()
    ensures { MOST_ASSOCIATIONS ≡ 65_535 }
{}
