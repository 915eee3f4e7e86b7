//! What an error may be called.
ghost use Rattle.std.specs.Prelude.{◌≡◌};
ghost use Rattle.std.specs.List.{list_all};
ghost use Rattle.exec_value.specs.ErrorName.{is_error_name, is_name_byte};

use crate::limits::ERROR_NAME_BYTES;

/// Whether these bytes are an error name: 1 to 64 bytes, each an ASCII letter, a digit, `-`, `_`,
/// `.` or `@`.
pub fn is_error_name(bytes: &[u8]) -> bool
    ensures { result ≡ is_error_name bytes.now }
{
    !bytes.is_empty() && bytes.len() <= ERROR_NAME_BYTES && are_name_bytes(bytes)
}

/// Whether an error name may have each of these bytes.
fn are_name_bytes(bytes: &[u8]) -> bool
    ensures { result ≡ list_all is_name_byte bytes.now }
{
    bytes.iter().all(|byte| is_name_byte(*byte))
}

/// Whether an error name may have this byte.
fn is_name_byte(byte: u8) -> bool
    ensures { result ≡ is_name_byte byte }
{
    byte.is_ascii_alphanumeric() || b"-_.@".contains(&byte)
}
