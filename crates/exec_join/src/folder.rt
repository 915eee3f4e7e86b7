//! The files of the system as a folder.
ghost use Rattle.std.specs.Prelude.{◌≡◌, None};

use exec_io::Failed;
use part_lines::{Folder, OpenFault};
use std::fs::File;
use std::io::{ErrorKind, Read};
use std::rt::Files;

/// Files by their paths. It counts the calls that fail, and tells nothing of what a file holds.
#[derive(Drop)]
pub struct FileFolder<'a, R: Files> {
    rt: &'a R,
    faults: u64,
}

impl<'a, R: Files> FileFolder<'a, R> {
    pub fn new(rt: &'a R) -> Self
        ensures { result.faults ≡ 0 }
    {
        FileFolder { rt, faults: 0 }
    }
}

/// A file that is open.
#[derive(Drop)]
pub struct OpenFile<T: Read + Drop> {
    inner: T,
}

impl<R: Files> Folder for FileFolder<'_, R> {
    type File = OpenFile<R::File>;

    ghost told = { λ s. record { texts = None; faults = s.faults } };

    ghost left = { λ _. None };

    fn open(&mut self, name: &str) -> Result<Self::File, OpenFault> {
        match File::open(self.rt, name) {
            Ok(inner) => Ok(OpenFile { inner }),
            Err(error) => match error.kind() {
                ErrorKind::NotFound => Err(OpenFault::Missing),
                ErrorKind::OutOfMemory => Err(OpenFault::NoMemory),
                _ => {
                    self.faults = self.faults.saturating_add(1);
                    Err(OpenFault::Failed)
                }
            },
        }
    }

    fn read(&mut self, file: &mut Self::File, buf: &mut [u8]) -> Result<usize, Failed> {
        match file.inner.read(buf) {
            Ok(count) => Ok(count),
            Err(_) => {
                self.faults = self.faults.saturating_add(1);
                Err(Failed)
            }
        }
    }
}
