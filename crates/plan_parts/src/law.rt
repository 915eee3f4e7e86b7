//! The limit that this crate sets, in numbers.
ghost use Rattle.std.specs.Prelude.{◌≡◌};

use crate::scalar::MOST_PLACE;

/// The limit in numbers.
pub fn limits()
    ensures { MOST_PLACE ≡ 63 }
{}
