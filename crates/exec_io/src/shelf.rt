//! Where texts are read by name.
ghost use Rattle.std.specs.Prelude.{◌≡◌, ◌≤◌, ◌+◌, IfOk, IfSome, vec_len};
ghost use Rattle.exec_io.specs.Asked.{AsksOnce};
ghost use Rattle.exec_io.specs.Causes.{HasShelfCause};
ghost use Rattle.exec_io.specs.Shelves.{ReadsText};
ghost use Rattle.exec_io.specs.Views.{ShelfView};

use crate::ShelfFault;
use std::alloc::Global;

/// Texts by name, which a call reads from the beginning.
pub trait Shelf {
    /// The texts by name, where the shelf tells them, the names that reads asked for so far, where
    /// it tells these, and how often a call has failed. That count never falls, and stands still at
    /// its type's end.
    ghost told: { Self → ShelfView };

    /// The first `max + 1` bytes of the named text, or all of it where it is shorter. A name
    /// without a text is a fault. Nothing on the shelf changes, and the name is one of those that
    /// it was asked for.
    fn read(&mut self, alloc: Global, name: &str, max: usize) -> Result<Vec<u8>, ShelfFault>
        ensures text { IfSome (told self.old).texts (λ all. ReadsText all name.now max result) }
        ensures most { IfOk result (λ bytes. vec_len bytes ≤ max + 1) }
        ensures same { (told self.new).texts ≡ (told self.old).texts }
        ensures asks { AsksOnce name.now (told self.old).asked (told self.new).asked }
        ensures cause { HasShelfCause (told self.old).faults (told self.new).faults result };
}
