//! An object in memory of which no call fails, so that its count of faults is always 0.
ghost use Rattle.std.specs.Prelude.{◌≡◌, ◌<◌, ◌≤◌, Bool, [], length, take, min, true, false, IsTrue, IsFalse, IfOk, IfSome, OnOk, OnErr};
ghost use Rattle.std.specs.Io.{ReadsAtMost};
ghost use Rattle.std.specs.Io.KnownBytes.{ReadConsumes};
ghost use Rattle.exec_io.specs.Causes.{HasCause};
ghost use Rattle.exec_io.specs.Memory.{NeverFailsState, WritesInner, after_finish, steady_source, steady_sink};
ghost use Rattle.exec_io.specs.Sinks.{Appends, AddsAtMost, HoldsNoMore};

use crate::{Failed, MemSink, MemSource, Sink, Source};
use std::marker::Model;

/// What may stand in a [`NeverFails`].
pub trait Steady {
    /// No call of it is to fail, and it takes at least one byte in a write.
    ghost never_fails: { Self → Bool };
}

/// A [`MemSource`] or a [`MemSink`] of which no call fails. Where the sink finds no memory for the
/// bytes of a write it takes them all the same, and tells nothing from then on.
#[derive(Drop)]
pub struct NeverFails<T: Steady> {
    inner: T,
    tells: bool,
}

impl<T: Steady> Model for NeverFails<T> {
    ghost Value = { NeverFailsState T };

    ghost view = { λ s. record { inner = s.inner; tells = s.tells } };

    ghost invariant = { λ s. IsTrue (T.never_fails s.inner) };
}

impl<T: Steady> NeverFails<T> {
    /// Stands over an object of which no call is to fail.
    pub fn new(inner: T) -> Self
        requires { IsTrue (T.never_fails inner) }
        ensures { result ≡ record { inner = inner; tells = true } }
    {
        NeverFails { inner, tells: true }
    }

    /// The object that it stands over.
    pub fn inner(&self) -> &T
        ensures { result.now ≡ self.now.inner }
    {
        &self.inner
    }
}

impl Source for NeverFails<MemSource> {
    ghost told = { steady_source };

    fn read(&mut self, buf: &mut [u8]) -> Result<usize, Failed>
        requires { 0 < length buf.old }
        ensures bound { ReadsAtMost result buf.new }
        ensures bytes { ReadConsumes (steady_source self.old).left (steady_source self.new).left
            result buf.new }
        ensures cause { HasCause 0 0 result }

        ensures full { IfOk result (λ n. n ≡ min (length self.old.inner.left) (length buf.old)) }
    {
        self.inner.read(buf)
    }
}

impl Sink for NeverFails<MemSink> {
    ghost told = { steady_sink };

    fn write(&mut self, piece: &[u8]) -> Result<usize, Failed>
        requires { 0 < length piece.now }
        ensures count { IfOk result (λ n. (1 ≤ n) × (n ≤ length piece.now)) }
        ensures ok { IfOk result (λ n.
            Appends (steady_sink self.old).written (steady_sink self.new).written
            (take n piece.now)) }
        ensures err { OnErr result
            (Appends (steady_sink self.old).written (steady_sink self.new).written []) }
        ensures held { IfOk result (λ n.
            AddsAtMost (steady_sink self.old).outstanding (steady_sink self.new).outstanding n) }
        ensures held_err { OnErr result
            (HoldsNoMore (steady_sink self.old) (steady_sink self.new)) }
        ensures cause { HasCause 0 0 result }

        // While it tells, it does what the object under it does.
        ensures telling { IsTrue self.new.tells
            → IfOk result (λ n. WritesInner self.old self.new piece.now n) }
        ensures losing { IsTrue self.old.tells → IsFalse self.new.tells
            → IfOk result (λ n. n ≡ length piece.now) }
    {
        match self.inner.write(piece) {
            Ok(count) => Ok(count),
            Err(Failed) => {
                self.tells = false;
                Ok(piece.len())
            }
        }
    }

    fn finish(&mut self) -> Result<(), Failed>
        ensures written { Appends (steady_sink self.old).written (steady_sink self.new).written [] }
        ensures held { HoldsNoMore (steady_sink self.old) (steady_sink self.new) }
        ensures handed_on { OnOk result
            (IfSome (steady_sink self.new).outstanding (λ count. count ≡ 0)) }
        ensures cause { HasCause 0 0 result }

        ensures after { self.new ≡ record self.old { inner = after_finish self.old.inner } }
    {
        self.inner.finish()
    }
}
