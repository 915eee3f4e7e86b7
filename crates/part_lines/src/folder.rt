//! Where files are opened by name.
ghost use Rattle.std.specs.Prelude.{◌≡◌, ◌<◌, ℕ, List, Option, length, IfSome};
ghost use Rattle.std.specs.Io.{ReadsAtMost};
ghost use Rattle.std.specs.Io.KnownBytes.{ReadConsumes};
ghost use Rattle.exec_io.specs.Causes.{HasCause};
ghost use Rattle.part_lines.specs.Folders.{FolderView, Opens, HasOpenCause};

use exec_io::Failed;

/// Why a file wasn't opened.
#[derive(Clone, Copy, Debug, PartialEq, Eq)]
pub enum OpenFault {
    /// None has this name.
    Missing,
    /// It can't be opened. The folder's count of faults rose in the call.
    Failed,
    /// There was no memory for it.
    NoMemory,
}

/// Files by name, of which several may be open at a time.
pub trait Folder {
    /// A file that is open.
    type File: Drop;

    /// The texts by name, where the folder tells them, and how often a call has failed. That count
    /// never falls, and stands still at its type's end.
    ghost told: { Self → FolderView };

    /// The bytes of an open file that weren't read yet, where it tells them.
    ghost left: { Self.File → Option (List ℕ) };

    /// Opens the file of this name, to be read from its start.
    fn open(&mut self, name: &str) -> Result<Self::File, OpenFault>
        ensures opens { IfSome (told self.old).texts (λ all. Opens left all name.now result) }
        ensures same { (told self.new).texts ≡ (told self.old).texts }
        ensures cause { HasOpenCause (told self.old).faults (told self.new).faults result };

    /// Reads into the front of `buf`. `Ok(n)` gives the next `n` bytes, and `Ok(0)` is the end: no
    /// byte is left. At `Failed` nothing was consumed.
    fn read(&mut self, file: &mut Self::File, buf: &mut [u8]) -> Result<usize, Failed>
        requires { 0 < length buf.old }
        ensures bound { ReadsAtMost result buf.new }
        ensures bytes { ReadConsumes (left file.old) (left file.new) result buf.new }
        ensures same { (told self.new).texts ≡ (told self.old).texts }
        ensures cause { HasCause (told self.old).faults (told self.new).faults result };
}
