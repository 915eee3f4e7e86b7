//! How the lines of parts that follow each other are joined.
ghost use Rattle.std.specs.Prelude.{◌≡◌, ◌≢◌, ◌≤◌, ◌<◌, ◌*◌, [], List, ℕ, Some, IfOk, IfErr, OnOk, All, length, vec_len};
ghost use Rattle.std.specs.List.{AllZip};
ghost use Rattle.exec_io.specs.Shelves.{Texts};
ghost use Rattle.exec_io.specs.Sinks.{Appends};
ghost use Rattle.join_commands.specs.Faults.{HasJoinCause, IsJoinFault};
ghost use Rattle.join_commands.specs.Joins.{AreTallied, AreWhole, HandsOn, JoinsLines, LeavesFront, PutsJoined, asked_for};
ghost use Rattle.part_lines.specs.Streams.{in_order};
ghost use Rattle.join_commands.specs.Statuses.{counts_status};
ghost use Rattle.join_commands.specs.declared.ask.Asked.TheVariants.{Lines, Dealt};
ghost use Rattle.join_commands.specs.declared.ask.TheConstants.{MOST_PARTS};
ghost use Rattle.join_commands.specs.declared.fault.JoinFault.TheVariants.{ReadFault, WriteFault};
ghost use Rattle.part_lines.specs.Tallies.{Tallies};
ghost use Rattle.part_lines.specs.declared.limits.TheConstants.{MOST_LINES};

use crate::fault::{JoinFault, at_part, at_put};
use crate::look::{look_through, open_lines};
use crate::refusal::{Cause, Refusal};
use crate::status::status_of;
use crate::turns::{check_dealt, put_in_turn};
use exec_io::{Failed, Sink};
use exec_status::Status;
use part_lines::{Folder, Tally, put_lines};
use std::alloc::Global;

/// Looks through all parts.
fn look_through_all<F: Folder>(
    alloc: Global,
    names: &[&str],
    folder: &mut F,
) -> Result<Vec<Tally>, JoinFault>
    ensures whole { (all : Texts) → (F.told folder.old).texts ≡ Some all
        → IfOk result (λ tallies. AreTallied all names.now tallies.items) }
    ensures fault { (all : Texts) → (F.told folder.old).texts ≡ Some all
        → IfErr result (IsJoinFault all names.now) }
    ensures many { IfOk result (λ tallies. vec_len tallies ≡ length names.now) }
    ensures few { IfOk result
        (λ tallies. All (λ tally. tally.lines ≤ MOST_LINES) tallies.items) }
    ensures same { (F.told folder.new).texts ≡ (F.told folder.old).texts }
    ensures cause { HasJoinCause ReadFault (F.told folder.old).faults (F.told folder.new).faults
        result }
    ensures quiet { IfErr result (λ fault. fault ≢ WriteFault) }
{
    let mut tallies = Vec::new(alloc);
    for (at, name) in names.iter().enumerate() {
        match look_through(alloc, *name, folder) {
            Ok(tally) => {
                if tallies.push(tally).is_err() {
                    return Err(JoinFault::NoMemory);
                }
            }
            Err(fault) => return Err(at_part(at, fault)),
        }
    }
    Ok(tallies)
}

/// The tally of all parts.
fn sum_of(tallies: &[Tally]) -> Tally
    requires parts { length tallies.now ≤ MOST_PARTS }
    requires few { All (λ tally. tally.lines ≤ MOST_LINES) tallies.now }
    ensures few { result.lines ≤ MOST_LINES * length tallies.now }
    ensures sum { (parts : List (List (List ℕ))) → AllZip Tallies tallies.now parts
        → Tallies result (in_order parts) }
{
    let mut sum = Tally::new();
    for tally in tallies {
        sum.add(tally);
    }
    sum
}

/// Writes the lines of parts that were looked through, one part after another.
fn put_in_order<F: Folder, K: Sink>(
    alloc: Global,
    names: &[&str],
    tallies: &[Tally],
    folder: &mut F,
    out: &mut K,
) -> Result<(), JoinFault>
    requires parts { length names.now ≤ MOST_PARTS }
    requires many { length tallies.now ≡ length names.now }
    requires few { All (λ tally. tally.lines ≤ MOST_LINES) tallies.now }
    ensures puts { (all : Texts) (parts : List (List (List ℕ)))
        → (F.told folder.old).texts ≡ Some all → AreWhole all names.now parts
        → AllZip Tallies tallies.now parts
        → PutsJoined (in_order parts) (K.told out.old) (K.told out.new) result }
    ensures reads { HasJoinCause ReadFault (F.told folder.old).faults (F.told folder.new).faults
        result }
    ensures writes { HasJoinCause WriteFault (K.told out.old).faults (K.told out.new).faults
        result }
{
    let mut written = 0;
    for (at, name) in names.iter().enumerate() {
        let mut reader = match open_lines(alloc, *name, folder) {
            Ok(reader) => reader,
            Err(fault) => return Err(at_part(at, fault)),
        };
        let end = match put_lines(&mut reader, written, folder, out) {
            Ok(end) => end,
            Err(fault) => return Err(at_put(at, fault)),
        };
        let wanted = written + tallies[at].lines();
        if end != wanted {
            return Err(JoinFault::Refused(Refusal {
                at,
                cause: Cause::Changed,
            }));
        }
        written = end;
    }
    Ok(())
}

/// The status of one run over all records, once what it would write was handed on.
fn finish_lines<K: Sink>(sum: &Tally, out: &mut K) -> Result<Status, JoinFault>
    ensures status { IfOk result (λ status.
        status ≡ counts_status sum.now.lines sum.now.values sum.now.no_memory) }
    ensures ok { OnOk result (HandsOn (K.told out.old) (K.told out.new)) }
    ensures err { IfErr result (λ fault. fault ≡ WriteFault) }
    ensures wrote { Appends (K.told out.old).written (K.told out.new).written [] }
    ensures writes { HasJoinCause WriteFault (K.told out.old).faults (K.told out.new).faults
        result }
{
    match out.finish() {
        Ok(()) => Ok(status_of(sum)),
        Err(Failed) => Err(JoinFault::WriteFault),
    }
}

/// Writes what one run over all records would write, where parts follow each other, and gives the
/// status that it would end with. Nothing is written where a part isn't whole.
fn join_ordered<F: Folder, K: Sink>(
    alloc: Global,
    names: &[&str],
    folder: &mut F,
    out: &mut K,
) -> Result<Status, JoinFault>
    requires parts { length names.now ≤ MOST_PARTS }
    ensures joined { (all : Texts) → (F.told folder.old).texts ≡ Some all → IfOk result
        (JoinsLines all Lines names.now (K.told out.old) (K.told out.new)) }
    ensures fault { (all : Texts) → (F.told folder.old).texts ≡ Some all
        → IfErr result (IsJoinFault all names.now) }
    ensures front { (all : Texts) → (F.told folder.old).texts ≡ Some all
        → IfErr result (LeavesFront all Lines names.now (K.told out.old) (K.told out.new)) }
    ensures reads { HasJoinCause ReadFault (F.told folder.old).faults (F.told folder.new).faults
        result }
    ensures writes { HasJoinCause WriteFault (K.told out.old).faults (K.told out.new).faults
        result }
{
    let tallies = look_through_all(alloc, names, folder)?;
    put_in_order(alloc, names, &tallies, folder, out)?;
    finish_lines(&sum_of(&tallies), out)
}

/// The same, where lines were dealt in turn.
fn join_dealt<F: Folder, K: Sink>(
    alloc: Global,
    names: &[&str],
    folder: &mut F,
    out: &mut K,
) -> Result<Status, JoinFault>
    requires some { 0 < length names.now }
    requires parts { length names.now ≤ MOST_PARTS }
    ensures joined { (all : Texts) → (F.told folder.old).texts ≡ Some all → IfOk result
        (JoinsLines all Dealt names.now (K.told out.old) (K.told out.new)) }
    ensures fault { (all : Texts) → (F.told folder.old).texts ≡ Some all
        → IfErr result (IsJoinFault all names.now) }
    ensures front { (all : Texts) → (F.told folder.old).texts ≡ Some all
        → IfErr result (LeavesFront all Dealt names.now (K.told out.old) (K.told out.new)) }
    ensures reads { HasJoinCause ReadFault (F.told folder.old).faults (F.told folder.new).faults
        result }
    ensures writes { HasJoinCause WriteFault (K.told out.old).faults (K.told out.new).faults
        result }
{
    let tallies = look_through_all(alloc, names, folder)?;
    check_dealt(&tallies)?;
    let sum = sum_of(&tallies);
    put_in_turn(alloc, names, sum.lines(), folder, out)?;
    finish_lines(&sum, out)
}

/// Writes what one run over all records would write, and gives the status that it would end with.
/// Nothing is written where a part isn't whole.
pub(crate) fn join_lines<F: Folder, K: Sink>(
    alloc: Global,
    names: &[&str],
    dealt: bool,
    folder: &mut F,
    out: &mut K,
) -> Result<Status, JoinFault>
    requires some { 0 < length names.now }
    requires parts { length names.now ≤ MOST_PARTS }
    ensures joined { (all : Texts) → (F.told folder.old).texts ≡ Some all → IfOk result
        (JoinsLines all (asked_for dealt) names.now (K.told out.old) (K.told out.new)) }
    ensures fault { (all : Texts) → (F.told folder.old).texts ≡ Some all
        → IfErr result (IsJoinFault all names.now) }
    ensures front { (all : Texts) → (F.told folder.old).texts ≡ Some all
        → IfErr result
        (LeavesFront all (asked_for dealt) names.now (K.told out.old) (K.told out.new)) }
    ensures reads { HasJoinCause ReadFault (F.told folder.old).faults (F.told folder.new).faults
        result }
    ensures writes { HasJoinCause WriteFault (K.told out.old).faults (K.told out.new).faults
        result }
{
    if dealt {
        join_dealt(alloc, names, folder, out)
    } else {
        join_ordered(alloc, names, folder, out)
    }
}
