//! A source over bytes in memory.
ghost use Rattle.std.specs.Prelude.{◌==◌, ◌≡◌, ◌<◌, ◌≤◌, ◌++◌, length, take, drop, min, is_err, IfOk};
ghost use Rattle.std.specs.Io.{ReadsAtMost};
ghost use Rattle.std.specs.Io.KnownBytes.{ReadConsumes};
ghost use Rattle.exec_io.specs.Calls.{no_calls, is_to_fail, after_call};
ghost use Rattle.exec_io.specs.Causes.{HasCause};
ghost use Rattle.exec_io.specs.Memory.{SourceState, source_view};

use crate::calls::Calls;
use crate::{Failed, Source, Steady};
use std::marker::Model;

/// A source over bytes in memory, some of whose calls fail.
#[derive(Drop)]
pub struct MemSource {
    bytes: Vec<u8>,
    at: usize,
    calls: Calls,
}

impl Model for MemSource {
    ghost Value = { SourceState };

    ghost view = { λ s. record { left = drop s.at s.bytes.items; calls = s.calls } };

    ghost invariant = { λ s. s.at ≤ length s.bytes.items };
}

impl MemSource {
    /// A source of these bytes. Its calls are numbered from 1, and those that `fails` names fail.
    pub fn new(bytes: Vec<u8>, fails: Vec<u64>) -> Self
        ensures { result ≡ record { left = bytes.items; calls = no_calls fails.items } }
    {
        MemSource {
            bytes,
            at: 0,
            calls: Calls::new(fails),
        }
    }

    fn rest(&self) -> &[u8]
        ensures { result.now ≡ self.now.left }
    {
        &self.bytes[self.at..]
    }
}

/// Copies as many bytes into the front of `buf` as there is room for, and says how many.
fn fill(buf: &mut [u8], bytes: &[u8]) -> usize
    ensures count { result ≡ min (length bytes.now) (length buf.old) }
    ensures bytes { buf.new ≡ take result bytes.now ++ drop result buf.old }
{
    let count = bytes.len().min(buf.len());
    buf[..count].copy_from_slice(&bytes[..count]);
    count
}

impl Source for MemSource {
    ghost told = { source_view };

    fn read(&mut self, buf: &mut [u8]) -> Result<usize, Failed>
        requires { 0 < length buf.old }
        ensures bound { ReadsAtMost result buf.new }
        ensures bytes { ReadConsumes (source_view self.old).left (source_view self.new).left
            result buf.new }
        ensures cause { HasCause self.old.calls.faults self.new.calls.faults result }

        // It fails exactly at the calls that are to fail, and else gives what there is room for.
        ensures failed { is_err result ≡ is_to_fail self.old.calls }
        ensures calls { self.new.calls ≡ after_call self.old.calls (is_err result) }
        ensures full { IfOk result (λ n. n ≡ min (length self.old.left) (length buf.old)) }
    {
        self.calls.begin()?;
        let count = fill(buf, self.rest());
        self.at += count;
        Ok(count)
    }
}

impl Steady for MemSource {
    ghost never_fails = { λ s. length s.calls.fails == 0 };
}
