//! Where bytes are read from.
ghost use Rattle.std.specs.Prelude.{◌<◌, length};
ghost use Rattle.std.specs.Io.{ReadsAtMost};
ghost use Rattle.std.specs.Io.KnownBytes.{ReadConsumes};
ghost use Rattle.exec_io.specs.Causes.{HasCause};
ghost use Rattle.exec_io.specs.Views.{SourceView};

use crate::Failed;

/// A source of bytes, which may fail and may be read on after that.
pub trait Source {
    /// The bytes that are left, where the source tells them, and how often a call has failed. That
    /// count never falls, and stands still at its type's end.
    ghost told: { Self → SourceView };

    /// Reads into the front of `buf`. `Ok(n)` gives the next `n` bytes, and `Ok(0)` is the end: no
    /// byte is left. At `Failed` nothing was consumed.
    fn read(&mut self, buf: &mut [u8]) -> Result<usize, Failed>
        requires { 0 < length buf.old }
        ensures bound { ReadsAtMost result buf.new }
        ensures bytes { ReadConsumes (told self.old).left (told self.new).left result buf.new }
        ensures cause { HasCause (told self.old).faults (told self.new).faults result };
}
