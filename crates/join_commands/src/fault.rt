//! Why parts aren't joined.
ghost use Rattle.std.specs.Prelude.{◌≡◌};
ghost use Rattle.join_commands.specs.Faults.{at_part, at_put, of_lines};

use crate::refusal::{Cause, Refusal};
use part_lines::{PartFault, PutFault};

/// Why a part isn't read.
#[derive(Clone, Copy)]
pub(crate) enum LookFault {
    Refused(Cause),
    /// A file can't be opened, or a read failed.
    ReadFault,
    NoMemory,
}

/// Why parts aren't joined.
#[derive(Clone, Copy)]
pub(crate) enum JoinFault {
    Refused(Refusal),
    /// A file can't be opened, or a read failed.
    ReadFault,
    /// A write failed.
    WriteFault,
    NoMemory,
}

/// The same, of the part at a place.
pub(crate) fn at_part(at: usize, fault: LookFault) -> JoinFault
    ensures { result ≡ at_part at fault }
{
    match fault {
        LookFault::Refused(cause) => JoinFault::Refused(Refusal { at, cause }),
        LookFault::ReadFault => JoinFault::ReadFault,
        LookFault::NoMemory => JoinFault::NoMemory,
    }
}

/// Why the lines of a part aren't read on.
pub(crate) fn of_lines(fault: PartFault) -> LookFault
    ensures { result ≡ of_lines fault }
{
    match fault {
        PartFault::Missing => LookFault::Refused(Cause::NoLines),
        PartFault::NotLine(number) => LookFault::Refused(Cause::NotLine(number)),
        PartFault::Failed => LookFault::ReadFault,
        PartFault::NoMemory => LookFault::NoMemory,
    }
}

/// Why the lines of the part at a place aren't written on.
pub(crate) fn at_put(at: usize, fault: PutFault) -> JoinFault
    ensures { result ≡ at_put at fault }
{
    match fault {
        PutFault::Part(fault) => at_part(at, of_lines(fault)),
        PutFault::Write => JoinFault::WriteFault,
    }
}
