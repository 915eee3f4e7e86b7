//! A part, read line by line.
ghost use Rattle.std.specs.Prelude.{◌≡◌, ◌⊎◌, ◌≤◌, ◌<◌, ◌+◌, ℕ, List, Some, None, drop, length, slice_range, IfOk, IfErr, IfSome, MatchResult, MatchOption};
ghost use Rattle.std.specs.Io.KnownBytes.{IsAtEnd, Keeps};
ghost use Rattle.std.specs.Option.{option_map};
ghost use Rattle.exec_io.specs.Shelves.{text_of};
ghost use Rattle.part_lines.specs.declared.limits.TheConstants.{MOST_LINES};
ghost use Rattle.part_lines.specs.Faults.{IsFaultAt, HasPartCause, OpensPart, at_end, of_read};
ghost use Rattle.part_lines.specs.Lines.{LineEndsAt, Shows};
ghost use Rattle.part_lines.specs.Readers.{ReaderView, bytes_ahead, IsAtLine, FindsLineEnd, IsNext, IsSaidOrFault, behind_number};

use crate::folder::{Folder, OpenFault};
use crate::limits::MOST_LINES;
use crate::line::{Said, line_end, said_at};
use crate::window::{ReadFault, Window};
use std::alloc::Global;
use std::marker::Model;

/// Why a part isn't read on.
#[derive(Clone, Copy, Debug, PartialEq, Eq)]
pub enum PartFault {
    /// There is no file of this name.
    Missing,
    /// The line of this number isn't that of its record.
    NotLine(u64),
    /// The file can't be opened, or a read failed.
    Failed,
    /// There was no memory for a line.
    NoMemory,
}

/// Why a read of more bytes stops a part.
fn of_read(fault: ReadFault) -> PartFault
    ensures { result ≡ of_read fault }
{
    match fault {
        ReadFault::Failed => PartFault::Failed,
        ReadFault::NoMemory => PartFault::NoMemory,
    }
}

/// A part that is open, at one of its lines.
#[derive(Drop)]
pub struct PartReader<F: Folder> {
    file: F::File,
    window: Window,
    passed: u64,
}

impl<F: Folder> Model for PartReader<F> {
    ghost Value = { ReaderView };

    ghost view = { λ r. record {
      at_hand = r.window;
      ahead = bytes_ahead r.window (F.left r.file);
      passed = r.passed;
    } };

    ghost invariant = { λ r. r.passed ≤ MOST_LINES };
}

impl<F: Folder> PartReader<F> {
    /// Opens the file of this name, to be read as the lines of a part.
    pub fn open(alloc: Global, name: &str, folder: &mut F) -> Result<Self, PartFault>
        ensures start { IfOk result (λ reader. reader.passed ≡ 0) }
        ensures opens { IfSome (F.told folder.old).texts (λ all.
            OpensPart (text_of all name.now) result) }
        ensures same { (F.told folder.new).texts ≡ (F.told folder.old).texts }
        ensures cause { HasPartCause (F.told folder.old).faults (F.told folder.new).faults result }
    {
        let file = match folder.open(name) {
            Ok(file) => file,
            Err(OpenFault::Missing) => return Err(PartFault::Missing),
            Err(OpenFault::Failed) => return Err(PartFault::Failed),
            Err(OpenFault::NoMemory) => return Err(PartFault::NoMemory),
        };
        match Window::new(alloc) {
            Ok(window) => Ok(PartReader {
                file,
                window,
                passed: 0,
            }),
            Err(_) => Err(PartFault::NoMemory),
        }
    }

    /// What the next line says, which stays the next one until it is passed. `None` is the end of
    /// the part.
    pub fn next(&mut self, folder: &mut F) -> Result<Option<Said>, PartFault>
        ensures passed { self.new.passed ≡ self.old.passed }
        ensures ahead { IfOk result (λ _. Keeps self.old.ahead self.new.ahead) }
        ensures next { IfOk result (IsNext self.new) }
        ensures fault { IfErr result (IsFaultAt self.old.ahead (self.old.passed + 1)) }
        ensures same { (F.told folder.new).texts ≡ (F.told folder.old).texts }
        ensures cause { HasPartCause (F.told folder.old).faults (F.told folder.new).faults result }
    {
        let number = self.passed + 1;
        match fill_line(&mut self.window, &mut self.file, folder, number) {
            Ok(Some(end)) => said_or_fault(self.window.bytes(), end, number),
            Ok(None) => Ok(None),
            Err(fault) => Err(fault),
        }
    }

    /// The bytes of the next line behind its number, its line feed with them.
    #[inline(always)]
    pub fn line(&self, said: &Said) -> &[u8]
        requires { (words : List ℕ) × IsAtLine self.now said.now words }
        ensures { (words : List ℕ) → IsAtLine self.now said.now words
            → result.now ≡ behind_number words }
    {
        &self.window.bytes()[said.head..said.length]
    }

    /// Passes the next line.
    #[inline(always)]
    pub fn pass(&mut self, said: &Said)
        requires { (words : List ℕ) × IsAtLine self.old said.now words }
        ensures passed { self.new.passed ≡ self.old.passed + 1 }
        ensures ahead { self.new.ahead ≡ option_map (drop said.now.length) self.old.ahead }
    {
        self.window.pass(said.length);
        self.passed += 1;
    }
}

/// Where the next line feed is, at hand. `None` says that no byte is left; a fault, why there is no
/// line of this number.
fn fill_line<F: Folder>(
    window: &mut Window,
    file: &mut F::File,
    folder: &mut F,
    number: u64,
) -> Result<Option<usize>, PartFault>
    requires few { number ≤ MOST_LINES + 1 }
    ensures ahead { IfOk result (λ _. Keeps (bytes_ahead window.old (F.left file.old))
        (bytes_ahead window.new (F.left file.new))) }
    ensures found { IfOk result (FindsLineEnd window.new (F.left file.new)) }
    ensures fault { IfErr result (IsFaultAt (bytes_ahead window.old (F.left file.old)) number) }
    ensures same { (F.told folder.new).texts ≡ (F.told folder.old).texts }
    ensures cause { HasPartCause (F.told folder.old).faults (F.told folder.new).faults result }
{
    'reads: loop {
        if let Some(end) = line_end(window.bytes()) {
            return Ok(Some(end));
        }
        if window.is_full() {
            return Err(PartFault::NotLine(number));
        }
        match window.fill(folder, file) {
            Ok(0) => return at_end(window, number),
            Ok(_) => {}
            Err(fault) => return Err(of_read(fault)),
        }
    }
}

/// What comes at the end of a file: nothing, where nothing is at hand.
fn at_end(window: &Window, number: u64) -> Result<Option<usize>, PartFault>
    ensures { result ≡ at_end window.now number }
{
    if window.bytes().is_empty() {
        Ok(None)
    } else {
        Err(PartFault::NotLine(number))
    }
}

/// What the next line says, whose line feed is at this place.
#[inline(always)]
fn said_or_fault(bytes: &[u8], end: usize, number: u64) -> Result<Option<Said>, PartFault>
    requires { LineEndsAt bytes.now end }
    ensures { IsSaidOrFault bytes.now number result }
{
    if number > MOST_LINES {
        return Err(PartFault::NotLine(number));
    }
    match said_at(bytes, end, number) {
        Some(said) => Ok(Some(said)),
        None => Err(PartFault::NotLine(number)),
    }
}
