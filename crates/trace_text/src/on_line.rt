//! What stands on the lines behind an opening: the entries of a trace, or the choices of a
//! schedule.
ghost use Rattle.std.specs.Prelude.{◌≡◌, ℕ, List, Option, IfOk};
ghost use Rattle.trace_text.specs.Reading.{entry_of, choice_of};
ghost use Rattle.trace_text.specs.Setups.{Setup};

use crate::entry::{Choice, Entry};
use crate::opening::Opening;
use crate::read_line::{read_choice, read_entry};
use std::alloc::{AllocError, Global};

/// What a line behind an opening says.
pub trait OnLine: Drop {
    /// What the line says; none where it says nothing of the kind.
    ghost said_on: { Setup → List ℕ → Option Self };

    fn parse(alloc: Global, opening: &Opening, line: &[u8]) -> Result<Option<Self>, AllocError>
        ensures { IfOk result (λ read. read ≡ said_on opening.now line.now) };
}

impl OnLine for Entry {
    ghost said_on = { entry_of };

    fn parse(alloc: Global, opening: &Opening, line: &[u8]) -> Result<Option<Entry>, AllocError> {
        read_entry(alloc, opening, line)
    }
}

impl OnLine for Choice {
    ghost said_on = { choice_of };

    fn parse(alloc: Global, opening: &Opening, line: &[u8]) -> Result<Option<Choice>, AllocError> {
        read_choice(alloc, opening, line)
    }
}
