//! How large a wheel may be, in numbers.
ghost use Rattle.std.specs.Prelude.{◌≡◌, ◌^◌};

use crate::limits::{LAST_TURN, MOST_PLACES, MOST_TURNS};

/// The limits of wheels, of which the other contracts speak by name, are these numbers.
pub fn limits_of_wheels()
    ensures places { MOST_PLACES ≡ 262_400 }
    ensures turns { MOST_TURNS ≡ 1_000_000 }
    ensures last { LAST_TURN ≡ 2 ^ 62 }
{}
