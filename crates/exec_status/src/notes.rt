//! What is told on notes.
ghost use Rattle.std.specs.Prelude.{◌≡◌, ◌≤◌};
ghost use Rattle.exec_status.specs.Notes.{note_of};
ghost use Rattle.exec_status.specs.Noted.{Concludes};
ghost use Rattle.exec_status.specs.Sinks.{Tells};

use crate::status::Status;
use crate::telling::tell;
use exec_io::{Failed, Sink};
use exec_words::usage_lines;

/// What is told of a status. Of a refused file the refusal is told.
pub fn note_of(status: Status) -> &'static [u8]
    ensures { result.now ≡ note_of status }
{
    match status {
        Status::Usage => usage_lines(),
        Status::NoMemory => b"out of memory\n",
        Status::ReadFault => b"read fault\n",
        Status::WriteFault => b"write fault\n",
        Status::Limit => b"limit\n",
        Status::AllValues | Status::NotAllValues | Status::PlanRefused => b"",
    }
}

/// Tells the note of a status, where it has one, and gives the status that stands then: a write
/// fault where notes failed.
pub fn conclude<N: Sink>(status: Status, notes: &mut N) -> Status
    ensures later { (N.told notes.old).faults ≤ (N.told notes.new).faults }
    ensures concludes { Concludes status (N.told notes.old)
        (N.told notes.new) result }
{
    let note = note_of(status);
    if note.is_empty() {
        return status;
    }
    match tell(note, notes) {
        Ok(()) => status,
        Err(Failed) => Status::WriteFault,
    }
}

/// Tells why nothing is run. The status stands also where notes fail.
pub fn refuse<N: Sink>(text: &[u8], notes: &mut N)
    ensures later { (N.told notes.old).faults ≤ (N.told notes.new).faults }
    ensures tells { Tells (N.told notes.old)
        (N.told notes.new) text.now }
{
    let _ = tell(text, notes);
}
