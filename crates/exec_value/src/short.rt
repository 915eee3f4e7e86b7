//! Bytes that stand in place.
ghost use Rattle.std.specs.Prelude.{◌≡◌, ◌+◌, ◌≤◌, ◌++◌, length};
ghost use Rattle.exec_value.specs.declared.limits.TheConstants.{INLINE_BYTES};

use crate::limits::INLINE_BYTES;

/// At most 22 bytes, in place.
#[derive(Clone, Copy, Debug)]
pub(crate) struct Short {
    bytes: [u8; INLINE_BYTES],
    len: u8,
    ghost fits: { len ≤ INLINE_BYTES },
}

impl Short {
    ghost use Rattle.exec_value.specs.Short.{short_bytes};

    /// These bytes.
    pub(crate) fn from_slice(bytes: &[u8]) -> Short
        requires { length bytes.now ≤ INLINE_BYTES }
        ensures { short_bytes result ≡ bytes.now }
    {
        let mut held = [0; INLINE_BYTES];
        held[..bytes.len()].copy_from_slice(bytes);
        Short {
            bytes: held,
            len: bytes.len() as u8,
        }
    }

    /// These bytes and then more.
    pub(crate) fn with(&self, more: &[u8]) -> Short
        requires { length (short_bytes self.now) + length more.now ≤ INLINE_BYTES }
        ensures { short_bytes result ≡ short_bytes self.now ++ more.now }
    {
        let len = self.len as usize;
        let end = len + more.len();
        let mut held = self.bytes;
        held[len..end].copy_from_slice(more);
        Short {
            bytes: held,
            len: end as u8,
        }
    }

    /// The bytes.
    pub(crate) fn as_slice(&self) -> &[u8]
        ensures { result.now ≡ short_bytes self.now }
    {
        &self.bytes[..self.len as usize]
    }
}
