//! Any writer of std as a sink.
ghost use Rattle.std.specs.Prelude.{◌≡◌, ◌<◌, ◌≤◌, length, None, IfOk};
ghost use Rattle.std.specs.Io.KnownBytes.{WriteAppends, Keeps};
ghost use Rattle.exec_io.specs.Causes.{HasCause};

use crate::faults::Faults;
use exec_io::{Failed, Sink};
use std::io::Write;

/// A writer as a sink, which counts the calls that fail. It tells nothing of what was written.
#[derive(Drop)]
pub struct Writing<W: Write> {
    inner: W,
    faults: Faults,
}

impl<W: Write> Writing<W> {
    pub fn new(inner: W) -> Self
        ensures inner { result.inner ≡ inner }
        ensures faults { result.faults.count ≡ 0 }
    {
        Writing {
            inner,
            faults: Faults::none(),
        }
    }

    pub fn into_inner(self) -> W
        ensures { result ≡ self.inner }
    {
        self.inner
    }
}

impl<W: Write> Sink for Writing<W> {
    ghost told = { λ s.
        record { written = None; outstanding = None; faults = s.faults.count } };

    #[inline(always)]
    fn write(&mut self, piece: &[u8]) -> Result<usize, Failed>
        requires { 0 < length piece.now }
        ensures count { IfOk result (λ n. (1 ≤ n) × (n ≤ length piece.now)) }
        ensures cause { HasCause self.old.faults.count self.new.faults.count result }

        // What the writer tells has grown by what was taken.
        ensures taken { WriteAppends (W.contents self.old.inner) (W.contents self.new.inner)
            result piece.now }
    {
        match self.inner.write(piece) {
            Ok(0) | Err(_) => {
                self.faults.rise();
                Err(Failed)
            }
            Ok(count) => Ok(count),
        }
    }

    fn finish(&mut self) -> Result<(), Failed>
        ensures cause { HasCause self.old.faults.count self.new.faults.count result }
        ensures kept { Keeps (W.contents self.old.inner) (W.contents self.new.inner) }
    {
        match self.inner.flush() {
            Ok(()) => Ok(()),
            Err(_) => {
                self.faults.rise();
                Err(Failed)
            }
        }
    }
}
