//! The file of a command: how its bytes are read, and what is told where it gives no answer.
ghost use Rattle.std.specs.Prelude.{◌≡◌, ◌≤◌, IfOk, IfErr, OnOk, OnErr};
ghost use Rattle.exec_io.specs.Shelves.{Gives};
ghost use Rattle.exec_status.specs.Files.{GivesUp, IsOfShelf, ReadsShelf};
ghost use Rattle.exec_status.specs.Sinks.{Tells, TellsAll, TellsFront};
ghost use Rattle.trace_commands.specs.Refusals.{told_refusal, file_fault};

use exec_io::{Failed, Shelf, ShelfFault, Sink};
use exec_status::{FileFault, Status, conclude, tell, tell_numbered};
use replay_core::{FILE_BYTES, TraceFault};
use std::alloc::Global;

/// Why a file is none of a trace or a schedule.
#[derive(Clone, Copy, PartialEq, Eq)]
pub enum Refusal {
    /// It has more than `FILE_BYTES` bytes.
    TooLong,
    /// This line, from 1, is the first that goes wrong.
    Line(u32),
}

/// The bytes of the file of this name: all of them, or one more than a file may have.
pub fn read_file<F: Shelf>(
    alloc: Global,
    name: &str,
    shelf: &mut F,
) -> Result<Vec<u8>, FileFault<Refusal>>
    ensures reads { ReadsShelf name.now (F.told shelf.old) (F.told shelf.new) result }
    ensures given { IfOk result (λ bytes.
        Gives FILE_BYTES (F.told shelf.old).texts name.now bytes.items) }
    ensures fault { IfErr result IsOfShelf }
{
    match shelf.read(alloc, name, FILE_BYTES) {
        Ok(bytes) => Ok(bytes),
        Err(ShelfFault::Failed) => Err(FileFault::ReadFault),
        Err(ShelfFault::NoMemory) => Err(FileFault::NoMemory),
    }
}

/// Why bytes that weren't read as a trace or a schedule have no answer.
pub fn file_fault(fault: TraceFault) -> FileFault<Refusal>
    ensures { result ≡ file_fault fault }
{
    match fault {
        TraceFault::TooLong => FileFault::Refused(Refusal::TooLong),
        TraceFault::Line(line) => FileFault::Refused(Refusal::Line(line)),
        TraceFault::NoMemory => FileFault::NoMemory,
    }
}

/// Tells why there is no answer, and gives the status that stands then. A refusal stands also where
/// notes fail.
pub fn give_up<N: Sink>(fault: FileFault<Refusal>, notes: &mut N) -> Status
    ensures later { (N.told notes.old).faults ≤ (N.told notes.new).faults }
    ensures gives_up { GivesUp told_refusal fault (N.told notes.old) (N.told notes.new) result }
{
    match fault {
        FileFault::Refused(refusal) => {
            tell_refusal(refusal, notes);
            Status::PlanRefused
        }
        FileFault::ReadFault => conclude(Status::ReadFault, notes),
        FileFault::NoMemory => conclude(Status::NoMemory, notes),
    }
}

// Tells of a refusal, as far as notes take it.
fn tell_refusal<N: Sink>(refusal: Refusal, notes: &mut N)
    ensures later { (N.told notes.old).faults ≤ (N.told notes.new).faults }
    ensures tells { Tells (N.told notes.old) (N.told notes.new) (told_refusal refusal) }
{
    let _ = put_refusal(refusal, notes);
}

fn put_refusal<N: Sink>(refusal: Refusal, notes: &mut N) -> Result<(), Failed>
    ensures later { (N.told notes.old).faults ≤ (N.told notes.new).faults }
    ensures ok { OnOk result
        (TellsAll (N.told notes.old) (N.told notes.new) (told_refusal refusal)) }
    ensures err { OnErr result
        (TellsFront (N.told notes.old) (N.told notes.new) (told_refusal refusal)) }
{
    match refusal {
        Refusal::TooLong => tell(b"trace refused: too long\n", notes),
        Refusal::Line(line) => tell_numbered(b"trace refused: line ", line, notes),
    }
}
