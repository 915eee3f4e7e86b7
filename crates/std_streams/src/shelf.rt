//! The files of the system as a shelf.
ghost use Rattle.std.specs.Prelude.{◌≡◌, ◌≤◌, None, IfOk, IfSome, take, vec_len};

use crate::faults::Faults;
use exec_io::{Shelf, ShelfFault};
use std::alloc::Global;
use std::fs::File;
use std::io::{self, ErrorKind, Read};
use std::rt::Files;

/// Files as texts by their paths. It counts the reads that fail, and tells neither what a file
/// holds nor which was asked for.
#[derive(Drop)]
pub struct FileShelf<'a, R: Files> {
    rt: &'a R,
    faults: Faults,
}

impl<'a, R: Files> FileShelf<'a, R> {
    pub fn new(rt: &'a R) -> Self
        ensures { result.faults.count ≡ 0 }
    {
        FileShelf {
            rt,
            faults: Faults::none(),
        }
    }
}

impl<R: Files> Shelf for FileShelf<'_, R> {
    ghost told = { λ s. record { texts = None; asked = None; faults = s.faults.count } };

    fn read(&mut self, alloc: Global, name: &str, max: usize) -> Result<Vec<u8>, ShelfFault> {
        match open_front(self.rt, alloc, name, max.saturating_add(1)) {
            Ok(text) => Ok(text),
            Err(error) => {
                if error.kind() == ErrorKind::OutOfMemory {
                    return Err(ShelfFault::NoMemory);
                }
                self.faults.rise();
                Err(ShelfFault::Failed)
            }
        }
    }
}

/// The first `most` bytes of a file.
fn open_front<R: Files>(rt: &R, alloc: Global, path: &str, most: usize) -> io::Result<Vec<u8>>
    ensures { IfOk result (λ text. vec_len text ≤ most) }
{
    read_front(alloc, File::open(rt, path)?, most)
}

/// The first `most` bytes that a reader gives, and no more of one that gives more or never ends.
pub fn read_front<R: Read + Drop>(alloc: Global, reader: R, most: usize) -> io::Result<Vec<u8>>
    ensures most { IfOk result (λ text. vec_len text ≤ most) }
    ensures front { IfSome (R.remaining reader)
        (λ known. IfOk result (λ text. text.items ≡ take most known)) }
{
    let mut text = Vec::new(alloc);
    reader.take(most as u64).read_to_end(&mut text)?;
    text.truncate(most);
    Ok(text)
}
