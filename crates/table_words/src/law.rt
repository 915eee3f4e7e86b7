//! Where the scope's two words lie, as numbers.
ghost use Rattle.std.specs.Prelude.{◌≡◌};

use crate::layout::{SCOPE, SCOPE_SOURCE};

/// Where the scope's two words lie.
pub fn scope_words_lie_so()
    ensures scope { SCOPE ≡ 0 }
    ensures source { SCOPE_SOURCE ≡ 16 }
{}
