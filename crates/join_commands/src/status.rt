//! With which status a run over a part ended, and with which its lines say that it did.
ghost use Rattle.std.specs.Prelude.{◌≡◌, Some, IfOk, IfErr};
ghost use Rattle.exec_io.specs.Shelves.{Texts};
ghost use Rattle.join_commands.specs.Faults.{HasLookCause, IsStatusFault};
ghost use Rattle.join_commands.specs.Parts.{ToldStatus};
ghost use Rattle.join_commands.specs.Statuses.{told_status, counts_status, is_code, IsUntold};

use crate::fault::LookFault;
use crate::front::{FRONT, Front};
use crate::names::status_name;
use crate::refusal::Cause;
use exec_io::Failed;
use exec_status::Status;
use part_lines::{Folder, OpenFault, Tally, read_front};
use std::alloc::{AllocError, Global};

/// Whether the text is a digit, with a line feed behind it or without.
fn is_code(digit: &[u8], line: &[u8], text: &[u8]) -> bool
    ensures { result ≡ is_code digit.now line.now text.now }
{
    text == digit || text == line
}

/// The status of a run that came to its end, where this is the text of its file.
pub(crate) fn told_by(text: &[u8]) -> Option<Status>
    ensures { result ≡ told_status text.now }
{
    if is_code(b"0", b"0\n", text) {
        Some(Status::AllValues)
    } else if is_code(b"1", b"1\n", text) {
        Some(Status::NotAllValues)
    } else if is_code(b"4", b"4\n", text) {
        Some(Status::NoMemory)
    } else {
        None
    }
}

/// The status of a run that wrote lines which were counted so.
pub(crate) fn counts_status(lines: u64, values: u64, no_memory: u64) -> Status
    ensures { result ≡ counts_status lines values no_memory }
{
    if no_memory > 0 {
        Status::NoMemory
    } else if values == lines {
        Status::AllValues
    } else {
        Status::NotAllValues
    }
}

/// The status of a run that wrote lines which were tallied so.
pub(crate) fn status_of(tally: &Tally) -> Status
    ensures { result ≡ counts_status tally.now.lines tally.now.values tally.now.no_memory }
{
    counts_status(tally.lines(), tally.values(), tally.no_memory())
}

/// The status with which the run over a part ended: that of one which came to its end.
pub(crate) fn told_status<F: Folder>(
    alloc: Global,
    name: &str,
    folder: &mut F,
) -> Result<Status, LookFault>
    ensures told { (all : Texts) → (F.told folder.old).texts ≡ Some all
        → IfOk result (λ status. ToldStatus all name.now (Some status)) }
    ensures fault { (all : Texts) → (F.told folder.old).texts ≡ Some all
        → IfErr result (IsStatusFault all name.now) }
    ensures same { (F.told folder.new).texts ≡ (F.told folder.old).texts }
    ensures cause { HasLookCause (F.told folder.old).faults (F.told folder.new).faults result }
{
    let Ok(file_name) = status_name(alloc, name) else {
        return Err(LookFault::NoMemory);
    };
    let mut file = match folder.open(&file_name) {
        Ok(file) => file,
        Err(OpenFault::Missing) => return Err(LookFault::Refused(Cause::NoStatus)),
        Err(OpenFault::Failed) => return Err(LookFault::ReadFault),
        Err(OpenFault::NoMemory) => return Err(LookFault::NoMemory),
    };
    let mut text = [0; FRONT];
    match read_front(folder, &mut file, &mut text) {
        Ok(count) => told_or_refused(&text[..count]),
        Err(Failed) => Err(LookFault::ReadFault),
    }
}

/// The status that this text tells.
fn told_or_refused(text: &[u8]) -> Result<Status, LookFault>
    ensures told { IfOk result (λ status. told_status text.now ≡ Some status) }
    ensures refused { IfErr result (IsUntold text.now) }
{
    match told_by(text) {
        Some(status) => Ok(status),
        None => Err(LookFault::Refused(Cause::StatusIsnt(front_of(text)))),
    }
}

/// The first bytes of a text, as far as its first line feed.
fn front_of(text: &[u8]) -> Front {
    let mut bytes = [0; FRONT];
    let mut count = 0;
    for byte in text {
        if *byte == b'\n' || count == FRONT {
            break;
        }
        bytes[count] = *byte;
        count += 1;
    }
    Front { bytes, count }
}
