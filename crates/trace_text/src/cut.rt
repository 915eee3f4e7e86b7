//! How bytes are cut at a byte.
ghost use Rattle.std.specs.Prelude.{◌≡◌, ◌≢◌, All, None, Some, MatchOption};
ghost use Rattle.trace_text.specs.Words.{cut_at};
ghost use Rattle.trace_text.specs.Cuts.{IsCutAt};

use memchr::memchr;

/// Bytes in two, without the byte at which they were cut.
#[derive(Clone, Copy)]
pub struct Cut<'a> {
    pub front: &'a [u8],
    pub rest: &'a [u8],
}

/// Cuts bytes at the first byte of this kind.
pub fn cut_at(bytes: &[u8], byte: u8) -> Option<Cut<'_>>
    ensures { MatchOption result (cut_at byte bytes.now ≡ None)
        (λ c. cut_at byte bytes.now ≡ Some (record { front = c.front.now; rest = c.rest.now })) }
{
    split(bytes, byte)
}

// The bytes before the first byte of this kind, and those after it.
fn split(bytes: &[u8], byte: u8) -> Option<Cut<'_>>
    ensures { MatchOption result (All (λ b. b ≢ byte) bytes.now) (IsCutAt byte bytes.now) }
{
    let at = memchr(byte, bytes)?;
    Some(Cut {
        front: &bytes[..at],
        rest: &bytes[at + 1..],
    })
}
