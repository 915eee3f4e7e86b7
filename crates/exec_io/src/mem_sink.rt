//! A sink that keeps what is written in memory.
ghost use Rattle.std.specs.Prelude.{◌==◌, ◌&&◌, nat_le, ◌≡◌, ◌<◌, ◌≤◌, [], length, take, min, is_err, IsErr, IsTrue, IfOk, IfSome, OnOk, OnErr};
ghost use Rattle.exec_io.specs.Calls.{no_calls, is_to_fail, after_call};
ghost use Rattle.exec_io.specs.Causes.{HasCause};
ghost use Rattle.exec_io.specs.Memory.{SinkState, sink_view, no_bytes, after_write, after_finish, after_failure};
ghost use Rattle.exec_io.specs.Sinks.{Appends, AddsAtMost, HoldsNoMore};

use crate::calls::Calls;
use crate::{Failed, Sink, Steady};
use std::alloc::Global;
use std::marker::Model;

/// A sink that keeps what is written in memory. Some of its calls fail, and so does a write for
/// which it finds no memory.
#[derive(Drop)]
pub struct MemSink {
    bytes: Vec<u8>,
    outstanding: usize,
    most: usize,
    calls: Calls,
}

impl Model for MemSink {
    ghost Value = { SinkState };

    ghost view = { λ s. record {
      bytes = s.bytes.items;
      outstanding = s.outstanding;
      most = s.most;
      calls = s.calls;
    } };

    ghost invariant = { λ s. s.outstanding ≤ length s.bytes.items };
}

impl MemSink {
    /// An empty sink that takes at most `most` bytes in a write. Its calls are numbered from 1,
    /// `finish` among them, and those that `fails` names will fail.
    pub fn new(alloc: Global, most: usize, fails: Vec<u64>) -> Self
        ensures { result ≡ no_bytes most fails.items }
    {
        MemSink {
            bytes: Vec::new(alloc),
            outstanding: 0,
            most,
            calls: Calls::new(fails),
        }
    }

    /// The bytes written so far.
    pub fn bytes(&self) -> &[u8]
        ensures { result.now ≡ self.now.bytes }
    {
        &self.bytes
    }
}

impl Sink for MemSink {
    ghost told = { sink_view };

    fn write(&mut self, piece: &[u8]) -> Result<usize, Failed>
        requires { 0 < length piece.now }
        ensures count { IfOk result (λ n. (1 ≤ n) × (n ≤ length piece.now)) }
        ensures ok { IfOk result (λ n.
            Appends (sink_view self.old).written (sink_view self.new).written (take n piece.now)) }
        ensures err { OnErr result
            (Appends (sink_view self.old).written (sink_view self.new).written []) }
        ensures held { IfOk result (λ n.
            AddsAtMost (sink_view self.old).outstanding (sink_view self.new).outstanding n) }
        ensures held_err { OnErr result
            (HoldsNoMore (sink_view self.old) (sink_view self.new)) }
        ensures cause { HasCause self.old.calls.faults self.new.calls.faults result }

        // It fails at the calls that are to fail, and where it takes nothing or finds no memory.
        ensures listed { IsTrue (is_to_fail self.old.calls) → IsErr result }
        ensures full { IfOk result (λ n. n ≡ min self.old.most (length piece.now)) }
        ensures after_ok { IfOk result (λ n. self.new ≡ after_write self.old piece.now n) }
        ensures after_err { OnErr result (self.new ≡ after_failure self.old) }
    {
        self.calls.begin()?;
        let count = self.most.min(piece.len());
        if count == 0 {
            return Err(self.calls.fail());
        }
        if self.bytes.extend_from_slice(&piece[..count]).is_err() {
            return Err(self.calls.fail());
        }
        self.outstanding += count;
        Ok(count)
    }

    fn finish(&mut self) -> Result<(), Failed>
        ensures written { Appends (sink_view self.old).written (sink_view self.new).written [] }
        ensures held { HoldsNoMore (sink_view self.old) (sink_view self.new) }
        ensures handed_on { OnOk result
            (IfSome (sink_view self.new).outstanding (λ count. count ≡ 0)) }
        ensures cause { HasCause self.old.calls.faults self.new.calls.faults result }

        ensures failed { is_err result ≡ is_to_fail self.old.calls }
        ensures after_ok { OnOk result (self.new ≡ after_finish self.old) }
        ensures after_err { OnErr result (self.new ≡ after_failure self.old) }
    {
        self.calls.begin()?;
        self.outstanding = 0;
        Ok(())
    }
}

impl Steady for MemSink {
    ghost never_fails = { λ s. nat_le 1 s.most && (length s.calls.fails == 0) };
}
