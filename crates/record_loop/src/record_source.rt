//! Where the bytes of records are read from.
ghost use Rattle.std.specs.Prelude.{◌<◌, List, length, Option};
ghost use Rattle.std.specs.Io.{ReadsAtMost};
ghost use Rattle.std.specs.Io.KnownBytes.{ReadConsumes};
ghost use Rattle.exec_io.specs.Causes.{HasCause};
ghost use Rattle.exec_io.specs.Views.{SourceView};
ghost use Rattle.record_loop.specs.ReadStarts.{ReadStart, ReadsOnce, no_reads, start_of};

use exec_io::{Failed, Sink, Source};

/// A source of the bytes of records, which is shown out at each read: so what out holds when a read
/// begins, which may block, is a fact of the source. Every [`Source`] is one, and tells no reads.
pub trait RecordSource {
    /// The bytes that are left, where the source tells them, and how often a call has failed.
    ghost told: { Self → SourceView };

    /// What each read found that was made so far, where the source tells it. It may stop telling.
    ghost reads: { Self → Option (List ReadStart) };

    /// Reads into the front of `buf`, as [`Source::read`] does, beside `out`, to which nothing is
    /// done.
    fn read_beside<K: Sink>(&mut self, buf: &mut [u8], out: &K) -> Result<usize, Failed>
        requires { 0 < length buf.old }
        ensures bound { ReadsAtMost result buf.new }
        ensures bytes { ReadConsumes (told self.old).left (told self.new).left result buf.new }
        ensures cause { HasCause (told self.old).faults (told self.new).faults result }
        ensures reads { ReadsOnce (start_of (told self.old) (K.told out.now))
            (reads self.old) (reads self.new) };
}

impl<S: Source> RecordSource for S {
    ghost told = { S.told };

    ghost reads = { no_reads };

    fn read_beside<K: Sink>(&mut self, buf: &mut [u8], out: &K) -> Result<usize, Failed> {
        self.read(buf)
    }
}
