//! A folder of files in memory.
ghost use Rattle.std.specs.Prelude.{◌≡◌, [], Some, map, option_copied};
ghost use Rattle.exec_io.specs.Shelves.{text_of};
ghost use Rattle.part_lines.specs.MemFolders.{named_text};

use crate::folder::{Folder, OpenFault};
use exec_io::{Failed, MemSource, Source};
use std::alloc::{AllocError, Global};
use std::marker::Model;

/// A folder of files in memory, one of whose reads may fail.
#[derive(Drop)]
pub struct MemFolder {
    files: Vec<Named>,
    reads: u64,
    fails_at: u64,
    faults: u64,
}

/// A name, and the text of its file.
#[derive(Drop)]
pub(crate) struct Named {
    pub(crate) name: String,
    pub(crate) text: Vec<u8>,
}

/// An open file of a [`MemFolder`].
#[derive(Drop)]
pub struct MemFile {
    source: MemSource,
}

impl Model for MemFolder {
    ghost use Rattle.std.specs.Prelude.{map, Some};
    ghost use Rattle.part_lines.specs.Folders.{FolderView};
    ghost use Rattle.part_lines.specs.MemFolders.{named_text};

    ghost Value = { FolderView };

    ghost view = { λ f. record { texts = Some (map named_text f.files.items); faults = f.faults } };
}

impl MemFolder {
    /// A folder without files. Its reads are numbered from 1, and that of the number `fails_at`
    /// fails.
    pub fn new(alloc: Global, fails_at: u64) -> Self
        ensures { result ≡ record { texts = Some []; faults = 0 } }
    {
        MemFolder {
            files: Vec::new(alloc),
            reads: 0,
            fails_at,
            faults: 0,
        }
    }

    /// Adds a file behind the others. Of two with one name the first is found.
    pub fn add(&mut self, name: &str, text: &[u8]) -> Result<(), AllocError> {
        let alloc = *self.files.allocator();
        let named = Named {
            name: String::from_str(alloc, name)?,
            text: text.to_vec(alloc)?,
        };
        self.files.push(named)?;
        Ok(())
    }
}

/// The text of the first file of this name.
fn text_named<'a>(files: &'a [Named], name: &str) -> Option<&'a [u8]>
    ensures { option_copied result ≡ text_of (map named_text files.now) name.now }
{
    for file in files {
        if file.name.as_str() == name {
            return Some(&file.text);
        }
    }
    None
}

impl Folder for MemFolder {
    type File = MemFile;

    ghost told = { λ f. f };

    ghost left = { λ file. Some file.source.left };

    fn open(&mut self, name: &str) -> Result<MemFile, OpenFault> {
        let alloc = *self.files.allocator();
        match text_named(&self.files, name) {
            Some(text) => match text.to_vec(alloc) {
                Ok(text) => Ok(MemFile {
                    source: MemSource::new(text, Vec::new(alloc)),
                }),
                Err(AllocError) => Err(OpenFault::NoMemory),
            },
            None => Err(OpenFault::Missing),
        }
    }

    fn read(&mut self, file: &mut MemFile, buf: &mut [u8]) -> Result<usize, Failed> {
        self.reads = self.reads.saturating_add(1);
        if self.reads == self.fails_at {
            self.faults = self.faults.saturating_add(1);
            return Err(Failed);
        }
        match file.source.read(buf) {
            Ok(count) => Ok(count),
            Err(Failed) => {
                self.faults = self.faults.saturating_add(1);
                Err(Failed)
            }
        }
    }
}
