//! How lines that were dealt in turn are joined.
ghost use Rattle.std.specs.Prelude.{◌≡◌, ◌≢◌, ◌≤◌, ◌<◌, ◌+◌, List, ℕ, Some, IfOk, IfErr, OnOk, All, length, slice_get, vec_len};
ghost use Rattle.exec_io.specs.Shelves.{Texts};
ghost use Rattle.join_commands.specs.Faults.{HasJoinCause, IsOfReads};
ghost use Rattle.join_commands.specs.Joins.{AreWhole, PutsJoined, PutsText};
ghost use Rattle.part_lines.specs.Streams.{AreDealt};
ghost use Rattle.join_commands.specs.Turns.{AreAtStarts, AreLevel, IsAt, IsFirstEnded, IsUneven};
ghost use Rattle.join_commands.specs.declared.fault.JoinFault.TheVariants.{ReadFault, WriteFault};
ghost use Rattle.part_lines.specs.Lines.{numbered_line};
ghost use Rattle.part_lines.specs.declared.limits.TheConstants.{MOST_LINES};

use crate::fault::{JoinFault, at_part, of_lines};
use crate::look::open_lines;
use crate::refusal::{Cause, Refusal};
use exec_io::{Failed, Sink};
use part_lines::{Folder, PartReader, Tally, put_line};
use std::alloc::Global;

/// Checks that lines were dealt in turn: once a part has no more, none has.
pub(crate) fn check_dealt(tallies: &[Tally]) -> Result<(), JoinFault>
    requires some { 0 < length tallies.now }
    requires few { All (λ tally. tally.lines ≤ MOST_LINES) tallies.now }
    ensures level { OnOk result (AreLevel tallies.now) }
    ensures uneven { IfErr result (IsUneven tallies.now) }
{
    let ended = first_ended(tallies);
    let fewest = tallies[ended].lines();
    for (at, tally) in tallies.iter().enumerate() {
        let most = if at < ended { fewest + 1 } else { fewest };
        if tally.lines() > most {
            return Err(JoinFault::Refused(Refusal {
                at,
                cause: Cause::NotDealt(most + 1, ended),
            }));
        }
    }
    Ok(())
}

/// The first of the parts that have the fewest lines: it ends first.
fn first_ended(tallies: &[Tally]) -> usize
    requires { 0 < length tallies.now }
    ensures within { result < length tallies.now }
    ensures first { IsFirstEnded tallies.now result }
{
    let mut ended = 0;
    for at in 1..tallies.len() {
        if tallies[at].lines() < tallies[ended].lines() {
            ended = at;
        }
    }
    ended
}

/// Opens all parts.
fn open_all<F: Folder>(
    alloc: Global,
    names: &[&str],
    folder: &mut F,
) -> Result<Vec<PartReader<F>>, JoinFault>
    ensures many { IfOk result (λ readers. vec_len readers ≡ length names.now) }
    ensures starts { (all : Texts) (parts : List (List (List ℕ)))
        → (F.told folder.old).texts ≡ Some all → AreWhole all names.now parts
        → IfOk result (λ readers. AreAtStarts parts readers.items) }
    ensures hindered { (all : Texts) (parts : List (List (List ℕ)))
        → (F.told folder.old).texts ≡ Some all → AreWhole all names.now parts
        → IfErr result IsOfReads }
    ensures same { (F.told folder.new).texts ≡ (F.told folder.old).texts }
    ensures cause { HasJoinCause ReadFault (F.told folder.old).faults (F.told folder.new).faults
        result }
    ensures quiet { IfErr result (λ fault. fault ≢ WriteFault) }
{
    let mut readers = Vec::new(alloc);
    for (at, name) in names.iter().enumerate() {
        match open_lines(alloc, *name, folder) {
            Ok(reader) => {
                if readers.push(reader).is_err() {
                    return Err(JoinFault::NoMemory);
                }
            }
            Err(fault) => return Err(at_part(at, fault)),
        }
    }
    Ok(readers)
}

/// Writes a line of each part in turn, so many in all.
pub(crate) fn put_in_turn<F: Folder, K: Sink>(
    alloc: Global,
    names: &[&str],
    total: u64,
    folder: &mut F,
    out: &mut K,
) -> Result<(), JoinFault>
    requires { 0 < length names.now }
    ensures puts { (all : Texts) (parts : List (List (List ℕ))) (lines : List (List ℕ))
        → (F.told folder.old).texts ≡ Some all → AreWhole all names.now parts
        → AreDealt parts lines → total ≡ length lines
        → PutsJoined lines (K.told out.old) (K.told out.new) result }
    ensures reads { HasJoinCause ReadFault (F.told folder.old).faults (F.told folder.new).faults
        result }
    ensures writes { HasJoinCause WriteFault (K.told out.old).faults (K.told out.new).faults
        result }
{
    let mut readers = open_all(alloc, names, folder)?;
    let mut at = 0;
    for written in 0..total {
        put_next(at, &mut readers[at], written + 1, folder, out)?;
        at = if at + 1 == readers.len() { 0 } else { at + 1 };
    }
    Ok(())
}

/// Writes the next line of a part under this number.
fn put_next<F: Folder, K: Sink>(
    at: usize,
    reader: &mut PartReader<F>,
    number: u64,
    folder: &mut F,
    out: &mut K,
) -> Result<(), JoinFault>
    ensures puts { (said : List (List ℕ)) (words : List ℕ) → IsAt said reader.old
        → slice_get said reader.old.passed ≡ Some words
        → PutsText (numbered_line number words) (K.told out.old) (K.told out.new) result }
    ensures on { (said : List (List ℕ)) → IsAt said reader.old
        → OnOk result (IsAt said reader.new) }
    ensures passed { OnOk result (reader.new.passed ≡ reader.old.passed + 1) }
    ensures same { (F.told folder.new).texts ≡ (F.told folder.old).texts }
    ensures reads { HasJoinCause ReadFault (F.told folder.old).faults (F.told folder.new).faults
        result }
    ensures writes { HasJoinCause WriteFault (K.told out.old).faults (K.told out.new).faults
        result }
{
    match reader.next(folder) {
        Ok(Some(said)) => match put_line(reader, &said, number, out) {
            Ok(()) => {
                reader.pass(&said);
                Ok(())
            }
            Err(Failed) => Err(JoinFault::WriteFault),
        },
        Ok(None) => Err(JoinFault::Refused(Refusal {
            at,
            cause: Cause::Changed,
        })),
        Err(fault) => Err(at_part(at, of_lines(fault))),
    }
}
