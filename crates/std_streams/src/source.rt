//! Any reader of std as a source.
ghost use Rattle.std.specs.Prelude.{◌≡◌};

use crate::faults::Faults;
use exec_io::{Failed, Source};
use std::io::Read;

/// A reader as a source, which counts the reads that fail. It tells the bytes that the reader
/// tells, and so none where that is a stream of the system.
#[derive(Drop)]
pub struct Reading<R: Read> {
    inner: R,
    faults: Faults,
}

impl<R: Read> Reading<R> {
    pub fn new(inner: R) -> Self
        ensures inner { result.inner ≡ inner }
        ensures faults { result.faults.count ≡ 0 }
    {
        Reading {
            inner,
            faults: Faults::none(),
        }
    }
}

impl<R: Read> Source for Reading<R> {
    ghost told = { λ s. record { left = R.remaining s.inner; faults = s.faults.count } };

    fn read(&mut self, buf: &mut [u8]) -> Result<usize, Failed> {
        match self.inner.read(buf) {
            Ok(count) => Ok(count),
            Err(_) => {
                self.faults.rise();
                Err(Failed)
            }
        }
    }
}
