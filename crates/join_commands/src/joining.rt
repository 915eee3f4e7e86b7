//! The commands that join.
ghost use Rattle.std.specs.Prelude.{◌≡◌, true, Some, MatchOption};
ghost use Rattle.exec_io.specs.Shelves.{Texts};
ghost use Rattle.join_commands.specs.Asks.{are_names, command_asked};
ghost use Rattle.join_commands.specs.Endings.{EndsJoin, IsAnswered, IsUsage, TellsFault};
ghost use Rattle.join_commands.specs.Faults.{HasJoinCause};
ghost use Rattle.join_commands.specs.declared.fault.JoinFault.TheVariants.{ReadFault, WriteFault};

use crate::ask::{Asked, read_words, usage_lines};
use crate::fault::JoinFault;
use crate::lines::join_lines;
use crate::refusal::tell_refusal;
use crate::summary::join_summaries;
use exec_io::Sink;
use exec_status::{Status, conclude, refuse};
use part_lines::Folder;
use std::alloc::Global;

/// Joins what the words ask for, and gives the status that this ends with.
///
/// The status is that of one run over all records, `AllValues`, `NotAllValues` or `NoMemory`;
/// `Usage` for words that ask for nothing; `PlanRefused` where a part isn't whole; `NoMemory` also
/// where there was none to join; `ReadFault` where a file can't be opened or read; and `WriteFault`
/// where out or notes failed.
pub fn join<F: Folder, K: Sink, N: Sink>(
    alloc: Global,
    words: &[&str],
    folder: &mut F,
    out: &mut K,
    notes: &mut N,
) -> Status
    ensures { MatchOption (command_asked words.now)
        (IsUsage (F.told folder.old) (F.told folder.new) (K.told out.old) (K.told out.new)
        (N.told notes.old) (N.told notes.new) result)
        (IsAnswered words.now (F.told folder.old) (F.told folder.new) (K.told out.old)
        (K.told out.new) (N.told notes.old) (N.told notes.new) result) }
{
    let Some(request) = read_words(words) else {
        refuse(usage_lines(), notes);
        return Status::Usage;
    };
    let names = request.names;
    match join_asked(alloc, request.asked, names, folder, out) {
        Ok(status) => conclude(status, notes),
        Err(fault) => give_up(names, fault, notes),
    }
}

/// Joins the parts of these names.
fn join_asked<F: Folder, K: Sink>(
    alloc: Global,
    asked: Asked,
    names: &[&str],
    folder: &mut F,
    out: &mut K,
) -> Result<Status, JoinFault>
    requires { are_names names.now ≡ true }
    ensures ends { (all : Texts) → (F.told folder.old).texts ≡ Some all
        → EndsJoin all asked names.now (K.told out.old) (K.told out.new) result }
    ensures reads { HasJoinCause ReadFault (F.told folder.old).faults (F.told folder.new).faults
        result }
    ensures writes { HasJoinCause WriteFault (K.told out.old).faults (K.told out.new).faults
        result }
{
    match asked {
        Asked::Lines => join_lines(alloc, names, false, folder, out),
        Asked::Dealt => join_lines(alloc, names, true, folder, out),
        Asked::Summary => join_summaries(alloc, names, folder, out),
    }
}

/// Tells why parts aren't joined, and gives the status that stands then.
fn give_up<N: Sink>(names: &[&str], fault: JoinFault, notes: &mut N) -> Status
    ensures { TellsFault names.now fault (N.told notes.old) (N.told notes.new) result }
{
    match fault {
        JoinFault::Refused(refusal) => {
            tell_refusal(names, &refusal, notes);
            Status::PlanRefused
        }
        JoinFault::ReadFault => conclude(Status::ReadFault, notes),
        JoinFault::WriteFault => conclude(Status::WriteFault, notes),
        JoinFault::NoMemory => conclude(Status::NoMemory, notes),
    }
}
