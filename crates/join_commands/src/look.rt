//! How a part is looked through, before a line of it is written.
ghost use Rattle.std.specs.Prelude.{◌≡◌, ◌≤◌, Some, IfOk, IfErr, IsSomeAnd};
ghost use Rattle.exec_io.specs.Shelves.{Texts, text_of};
ghost use Rattle.join_commands.specs.Faults.{HasLookCause, IsLookFault, IsOpenFault};
ghost use Rattle.join_commands.specs.Parts.{IsTallied, out_name};
ghost use Rattle.part_lines.specs.declared.limits.TheConstants.{MOST_LINES};

use crate::fault::{LookFault, of_lines};
use crate::names::out_name;
use crate::refusal::Cause;
use crate::status::{status_of, told_status};
use part_lines::{Folder, PartReader, Tally, count_lines};
use std::alloc::Global;

/// Opens what the run over a part wrote.
pub(crate) fn open_lines<F: Folder>(
    alloc: Global,
    name: &str,
    folder: &mut F,
) -> Result<PartReader<F>, LookFault>
    ensures start { IfOk result (λ reader. reader.passed ≡ 0) }
    ensures opens { (all : Texts) → (F.told folder.old).texts ≡ Some all
        → IfOk result (λ reader.
        IsSomeAnd (text_of all (out_name name.now)) (λ text. reader.ahead ≡ Some text)) }
    ensures missing { (all : Texts) → (F.told folder.old).texts ≡ Some all
        → IfErr result (IsOpenFault all name.now) }
    ensures fault { (all : Texts) → (F.told folder.old).texts ≡ Some all
        → IfErr result (IsLookFault all name.now) }
    ensures same { (F.told folder.new).texts ≡ (F.told folder.old).texts }
    ensures cause { HasLookCause (F.told folder.old).faults (F.told folder.new).faults result }
{
    let Ok(file_name) = out_name(alloc, name) else {
        return Err(LookFault::NoMemory);
    };
    PartReader::open(alloc, &file_name, folder).map_err(|fault| of_lines(fault))
}

/// Looks through a part, which must be whole: its lines are those that a run writes, and its run
/// ended as they say.
pub(crate) fn look_through<F: Folder>(
    alloc: Global,
    name: &str,
    folder: &mut F,
) -> Result<Tally, LookFault>
    ensures whole { (all : Texts) → (F.told folder.old).texts ≡ Some all
        → IfOk result (IsTallied all name.now) }
    ensures fault { (all : Texts) → (F.told folder.old).texts ≡ Some all
        → IfErr result (IsLookFault all name.now) }
    ensures few { IfOk result (λ tally. tally.lines ≤ MOST_LINES) }
    ensures same { (F.told folder.new).texts ≡ (F.told folder.old).texts }
    ensures cause { HasLookCause (F.told folder.old).faults (F.told folder.new).faults result }
{
    let told = told_status(alloc, name, folder)?;
    let mut reader = open_lines(alloc, name, folder)?;
    let tally = match count_lines(&mut reader, folder) {
        Ok(tally) => tally,
        Err(fault) => return Err(of_lines(fault)),
    };
    let found = status_of(&tally);
    if told == found {
        Ok(tally)
    } else {
        Err(LookFault::Refused(Cause::StatusDiffers(told, found)))
    }
}
