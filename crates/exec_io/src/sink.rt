//! Where bytes are written to.
ghost use Rattle.std.specs.Prelude.{◌≡◌, ◌<◌, ◌≤◌, [], length, take, IfOk, OnErr, OnOk, IfSome};
ghost use Rattle.exec_io.specs.Causes.{HasCause};
ghost use Rattle.exec_io.specs.Sinks.{Appends, AddsAtMost, HoldsNoMore};
ghost use Rattle.exec_io.specs.Views.{SinkView};

use crate::Failed;

/// A sink for bytes, which may keep some back until it is told to hand them on.
pub trait Sink {
    /// The bytes written and how many of them it hasn't handed on, where the sink tells them (it
    /// may stop telling), and how often a call has failed. That count never falls, and stands still
    /// at its type's end.
    ghost told: { Self → SinkView };

    /// Writes a front of `piece`: `Ok(n)` appended its first `n` bytes, and `n` isn't 0. A sink
    /// that takes nothing answers `Failed`, and then nothing was appended.
    fn write(&mut self, piece: &[u8]) -> Result<usize, Failed>
        requires { 0 < length piece.now }
        ensures count { IfOk result (λ n. (1 ≤ n) × (n ≤ length piece.now)) }
        ensures ok { IfOk result
            (λ n. Appends (told self.old).written (told self.new).written (take n piece.now)) }
        ensures err { OnErr result (Appends (told self.old).written (told self.new).written []) }
        ensures held { IfOk result
            (λ n. AddsAtMost (told self.old).outstanding (told self.new).outstanding n) }
        ensures held_err { OnErr result
            (HoldsNoMore (told self.old) (told self.new)) }
        ensures cause { HasCause (told self.old).faults (told self.new).faults result };

    /// Hands on what was kept back, and appends nothing. After `Ok` no byte is left to hand on.
    fn finish(&mut self) -> Result<(), Failed>
        ensures written { Appends (told self.old).written (told self.new).written [] }
        ensures held { HoldsNoMore (told self.old) (told self.new) }
        ensures handed_on { OnOk result (IfSome (told self.new).outstanding (λ n. n ≡ 0)) }
        ensures cause { HasCause (told self.old).faults (told self.new).faults result };
}
