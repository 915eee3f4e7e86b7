//! The limits of version 1 in numbers.
ghost use Rattle.std.specs.Prelude.{◌≡◌};

use crate::limits::{
    DATA, ERROR_NAME_BYTES, INLINE_BYTES, INLINE_DATA, LINE_BYTES, NUMBERS, TEXT_BYTES,
};

/// The limits, of which all other contracts speak by name, are these numbers.
pub fn limits_are()
    ensures text_bytes { TEXT_BYTES ≡ 4_096 }
    ensures numbers { NUMBERS ≡ 4_096 }
    ensures data { DATA ≡ 64 }
    ensures error_name_bytes { ERROR_NAME_BYTES ≡ 64 }
    ensures line_bytes { LINE_BYTES ≡ 131_072 }
    ensures inline_bytes { INLINE_BYTES ≡ 22 }
    ensures inline_data { INLINE_DATA ≡ 1 }
{}
