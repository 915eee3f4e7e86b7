//! How many futures are kept, as a number.
ghost use Rattle.std.specs.Prelude.{◌≡◌};

use crate::limits::MOST_FUTURES;

/// The limit on futures, of which the other contracts speak by name, is this number.
pub fn limits_of_futures()
    ensures { MOST_FUTURES ≡ 64 }
{}
