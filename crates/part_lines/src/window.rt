//! The bytes of a file that were read and aren't passed yet.
ghost use Rattle.std.specs.Prelude.{◌≡◌, ◌≤◌, ◌<◌, ◌+◌, ◌-◌, ℕ, List, [], ◌++◌, length, drop, take, slice_range, vec_len, IfOk, OnOk, OnErr, MatchResult, true, false};
ghost use Rattle.std.specs.Io.KnownBytes.{Consumes, IsAtEnd, Keeps};
ghost use Rattle.exec_io.specs.Causes.{HasCause};
ghost use Rattle.part_lines.specs.declared.limits.TheConstants.{MOST_HELD};
ghost use Rattle.part_lines.specs.Readers.{bytes_ahead, HasReadCause};

use crate::folder::Folder;
use crate::limits::{FIRST_HELD, MOST_HELD};
use exec_io::Failed;
use std::alloc::{AllocError, Global};
use std::marker::Model;

/// Why no more was read.
#[derive(Clone, Copy, Debug, PartialEq, Eq)]
pub(crate) enum ReadFault {
    /// A read failed.
    Failed,
    /// There was no memory for a longer line.
    NoMemory,
}

/// The bytes of a file that were read and aren't passed yet.
#[derive(Drop)]
pub(crate) struct Window {
    bytes: Vec<u8>,
    start: usize,
    end: usize,
}

impl Model for Window {
    ghost Value = { List ℕ };

    ghost view = { λ w. slice_range w.bytes.items w.start w.end };

    ghost invariant = { λ w. (w.start ≤ w.end) × (w.end ≤ length w.bytes.items)
        × (0 < length w.bytes.items) × (length w.bytes.items ≤ MOST_HELD) };
}

impl Window {
    /// A window with no bytes.
    pub(crate) fn new(alloc: Global) -> Result<Window, AllocError>
        ensures { IfOk result (λ window. window ≡ []) }
    {
        let mut bytes = Vec::new(alloc);
        bytes.resize(FIRST_HELD, 0)?;
        Ok(Window {
            bytes,
            start: 0,
            end: 0,
        })
    }

    /// The bytes.
    #[inline(always)]
    pub(crate) fn bytes(&self) -> &[u8]
        ensures { result.now ≡ self.now }
    {
        &self.bytes[self.start..self.end]
    }

    /// Passes so many bytes.
    #[inline(always)]
    pub(crate) fn pass(&mut self, count: usize)
        requires { count ≤ length self.old }
        ensures { self.new ≡ drop count self.old }
    {
        self.start += count;
    }

    /// Whether there is no room for one byte more.
    pub(crate) fn is_full(&self) -> bool
        ensures full { result ≡ true → length self.now ≡ MOST_HELD }
        ensures room { result ≡ false → length self.now < MOST_HELD }
    {
        self.end - self.start == MOST_HELD
    }

    /// Reads more bytes of a file, and says how many. It gives none only at the end of the file.
    pub(crate) fn fill<F: Folder>(
        &mut self,
        folder: &mut F,
        file: &mut F::File,
    ) -> Result<usize, ReadFault>
        requires { length self.old < MOST_HELD }
        ensures more { OnOk result (length self.old ≤ length self.new) }
        ensures grows { IfOk result (λ n. length self.new ≡ length self.old + n) }
        ensures none { IfOk result (λ n. n ≡ 0 → self.new ≡ self.old) }
        ensures end { IfOk result (λ n. n ≡ 0 → IsAtEnd (F.left file.new)) }
        ensures ahead { OnOk result (Keeps (bytes_ahead self.old (F.left file.old))
            (bytes_ahead self.new (F.left file.new))) }
        ensures same { (F.told folder.new).texts ≡ (F.told folder.old).texts }
        ensures cause { HasReadCause (F.told folder.old).faults (F.told folder.new).faults result }
    {
        let count = self.end - self.start;
        if make_room(&mut self.bytes, self.start, self.end).is_err() {
            return Err(ReadFault::NoMemory);
        }
        self.start = 0;
        self.end = count;
        match folder.read(file, &mut self.bytes[count..]) {
            Ok(read) => {
                self.end = count + read;
                Ok(read)
            }
            Err(Failed) => Err(ReadFault::Failed),
        }
    }
}

/// Moves the bytes between two places to the front, and makes room for one more behind them. Where
/// there is no memory nothing is changed.
fn make_room(bytes: &mut Vec<u8>, start: usize, end: usize) -> Result<(), AllocError>
    requires ordered { start ≤ end }
    requires within { end ≤ vec_len bytes.old }
    requires some { 0 < vec_len bytes.old }
    requires held { vec_len bytes.old ≤ MOST_HELD }
    requires free { end - start < MOST_HELD }
    ensures front { OnOk result
        (take (end - start) bytes.new.items ≡ slice_range bytes.old.items start end) }
    ensures room { OnOk result (end - start < vec_len bytes.new) }
    ensures held { vec_len bytes.new ≤ MOST_HELD }
    ensures failed { OnErr result (vec_len bytes.new ≡ vec_len bytes.old) }
{
    let count = end - start;
    if count < bytes.len() {
        bytes.copy_within(start..end, 0);
        return Ok(());
    }
    grow(bytes)
}

/// Makes room behind all the bytes, for as many as there are.
fn grow(bytes: &mut Vec<u8>) -> Result<(), AllocError>
    requires some { 0 < vec_len bytes.old }
    requires held { vec_len bytes.old < MOST_HELD }
    ensures front { OnOk result (take (vec_len bytes.old) bytes.new.items ≡ bytes.old.items) }
    ensures room { OnOk result (vec_len bytes.old < vec_len bytes.new) }
    ensures held { vec_len bytes.new ≤ MOST_HELD }
    ensures failed { OnErr result (vec_len bytes.new ≡ vec_len bytes.old) }
{
    let wanted = (2 * bytes.len()).min(MOST_HELD);
    bytes.resize(wanted, 0)?;
    Ok(())
}
