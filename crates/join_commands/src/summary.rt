//! The summaries of parts, and their sum.
ghost use Rattle.std.specs.Prelude.{◌≡◌, ◌≢◌, ◌+◌, List, ℕ, Some, None, IfOk, IfErr, IfNone, IfSome};
ghost use Rattle.exec_io.specs.Shelves.{Texts};
ghost use Rattle.join_commands.specs.Faults.{HasJoinCause, HasLookCause};
ghost use Rattle.join_commands.specs.Summaries.{summary_status, summary_text, DoAgree, IsBoth, IsSummary, IsTooLarge, HasSum, JoinsSummaries, LeavesSumFront};
ghost use Rattle.join_commands.specs.Unsummed.{IsSumFault, IsUnreadSummary, IsUnsummed};
ghost use Rattle.join_commands.specs.declared.fault.JoinFault.TheVariants.{ReadFault, WriteFault};

use crate::fault::{JoinFault, LookFault, at_part};
use crate::names::out_name;
use crate::reading::{read_summary, text_of};
use crate::refusal::{Cause, Refusal};
use crate::status::{counts_status, told_status};
use exec_io::{Failed, Sink};
use exec_status::{Status, tell};
use part_lines::{Folder, OpenFault, read_front};
use std::alloc::Global;

/// More bytes than a summary has.
const SUMMARY_BYTES: usize = 1_024;

/// The numbers of a summary.
#[derive(Clone, Copy)]
pub(crate) struct Numbers {
    pub(crate) records: u64,
    pub(crate) values: u64,
    pub(crate) errors: u64,
    pub(crate) stopped: u64,
    pub(crate) no_memory: u64,
    pub(crate) bad: u64,
    pub(crate) sum: i128,
}

/// How the numbers of a summary contradict each other.
#[derive(Clone, Copy)]
pub(crate) enum Contradiction {
    /// How many records it says there are, and how many there are by the sorts of lines.
    Records(u64, u128),
    /// There is a sum, and there are no values.
    Sum(i128),
}

/// The numbers of a summary of nothing.
const NOTHING: Numbers = Numbers {
    records: 0,
    values: 0,
    errors: 0,
    stopped: 0,
    no_memory: 0,
    bad: 0,
    sum: 0,
};

/// The numbers of two summaries together. `None` says that one of them is too large.
fn added(first: &Numbers, second: &Numbers) -> Option<Numbers>
    ensures both { IfSome result (IsBoth first.now second.now) }
    ensures large { IfNone result (IsTooLarge first.now second.now) }
{
    Some(Numbers {
        records: first.records.checked_add(second.records)?,
        values: first.values.checked_add(second.values)?,
        errors: first.errors.checked_add(second.errors)?,
        stopped: first.stopped.checked_add(second.stopped)?,
        no_memory: first.no_memory.checked_add(second.no_memory)?,
        bad: first.bad.checked_add(second.bad)?,
        sum: first.sum.checked_add(second.sum)?,
    })
}

/// How many records there are by the sorts of lines.
fn by_sorts(numbers: &Numbers) -> u128
    ensures { result ≡ numbers.now.values + numbers.now.errors + numbers.now.stopped
        + numbers.now.no_memory + numbers.now.bad }
{
    u128::from(numbers.values)
        + u128::from(numbers.errors)
        + u128::from(numbers.stopped)
        + u128::from(numbers.no_memory)
        + u128::from(numbers.bad)
}

/// How numbers contradict each other, where they do.
pub(crate) fn contradiction_of(numbers: &Numbers) -> Option<Contradiction>
    ensures agree { result ≡ None → DoAgree numbers.now }
    ensures contradict { IfSome result (λ _. ¬ DoAgree numbers.now) }
{
    let found = by_sorts(numbers);
    if found != u128::from(numbers.records) {
        return Some(Contradiction::Records(numbers.records, found));
    }
    if numbers.values == 0 && numbers.sum != 0 {
        return Some(Contradiction::Sum(numbers.sum));
    }
    None
}

/// The status of a run whose summary has these numbers.
fn status_of(numbers: &Numbers) -> Status
    ensures { result ≡ summary_status numbers.now }
{
    counts_status(numbers.records, numbers.values, numbers.no_memory)
}

/// The numbers of the summary that this file is.
fn read_file<F: Folder>(
    alloc: Global,
    folder: &mut F,
    file: &mut F::File,
) -> Result<Numbers, LookFault>
    ensures text { (text : List ℕ) → F.left file.old ≡ Some text
        → IfOk result (λ numbers. text ≡ summary_text numbers) }
    ensures agree { IfOk result DoAgree }
    ensures refused { (text : List ℕ) → F.left file.old ≡ Some text
        → IfErr result (IsUnreadSummary text) }
    ensures same { (F.told folder.new).texts ≡ (F.told folder.old).texts }
    ensures cause { HasLookCause (F.told folder.old).faults (F.told folder.new).faults result }
{
    let mut text = [0; SUMMARY_BYTES];
    let count = match read_front(folder, file, &mut text) {
        Ok(count) => count,
        Err(Failed) => return Err(LookFault::ReadFault),
    };
    if count == SUMMARY_BYTES {
        return Err(LookFault::Refused(Cause::NoSummary));
    }
    read_summary(alloc, &text[..count])
}

/// The numbers of the summary that the run over a part wrote.
fn numbers_of<F: Folder>(alloc: Global, name: &str, folder: &mut F) -> Result<Numbers, LookFault>
    ensures whole { (all : Texts) → (F.told folder.old).texts ≡ Some all
        → IfOk result (IsSummary all name.now) }
    ensures refused { (all : Texts) → (F.told folder.old).texts ≡ Some all
        → IfErr result (IsSumFault all name.now) }
    ensures same { (F.told folder.new).texts ≡ (F.told folder.old).texts }
    ensures cause { HasLookCause (F.told folder.old).faults (F.told folder.new).faults result }
{
    let told = told_status(alloc, name, folder)?;
    let Ok(file_name) = out_name(alloc, name) else {
        return Err(LookFault::NoMemory);
    };
    let mut file = match folder.open(&file_name) {
        Ok(file) => file,
        Err(OpenFault::Missing) => return Err(LookFault::Refused(Cause::NoLines)),
        Err(OpenFault::Failed) => return Err(LookFault::ReadFault),
        Err(OpenFault::NoMemory) => return Err(LookFault::NoMemory),
    };
    let numbers = read_file(alloc, folder, &mut file)?;
    let found = status_of(&numbers);
    if told == found {
        Ok(numbers)
    } else {
        Err(LookFault::Refused(Cause::StatusDiffers(told, found)))
    }
}

/// The sum of the summaries of all parts.
fn sum_of_all<F: Folder>(
    alloc: Global,
    names: &[&str],
    folder: &mut F,
) -> Result<Numbers, JoinFault>
    ensures summed { (all : Texts) → (F.told folder.old).texts ≡ Some all
        → IfOk result (HasSum all names.now) }
    ensures refused { (all : Texts) → (F.told folder.old).texts ≡ Some all
        → IfErr result (IsUnsummed all names.now) }
    ensures same { (F.told folder.new).texts ≡ (F.told folder.old).texts }
    ensures cause { HasJoinCause ReadFault (F.told folder.old).faults (F.told folder.new).faults
        result }
    ensures quiet { IfErr result (λ fault. fault ≢ WriteFault) }
{
    let mut sum = NOTHING;
    for (at, name) in names.iter().enumerate() {
        let numbers = match numbers_of(alloc, *name, folder) {
            Ok(numbers) => numbers,
            Err(fault) => return Err(at_part(at, fault)),
        };
        let Some(more) = added(&sum, &numbers) else {
            return Err(JoinFault::Refused(Refusal {
                at,
                cause: Cause::TooLarge,
            }));
        };
        sum = more;
    }
    Ok(sum)
}

/// Writes the summary that one run over all records would write, and gives the status that it would
/// end with. Nothing is written where a part isn't whole.
pub(crate) fn join_summaries<F: Folder, K: Sink>(
    alloc: Global,
    names: &[&str],
    folder: &mut F,
    out: &mut K,
) -> Result<Status, JoinFault>
    ensures joined { (all : Texts) → (F.told folder.old).texts ≡ Some all
        → IfOk result (JoinsSummaries all names.now (K.told out.old) (K.told out.new)) }
    ensures fault { (all : Texts) → (F.told folder.old).texts ≡ Some all
        → IfErr result (IsUnsummed all names.now) }
    ensures front { (all : Texts) → (F.told folder.old).texts ≡ Some all
        → IfErr result (LeavesSumFront all names.now (K.told out.old) (K.told out.new)) }
    ensures reads { HasJoinCause ReadFault (F.told folder.old).faults (F.told folder.new).faults
        result }
    ensures writes { HasJoinCause WriteFault (K.told out.old).faults (K.told out.new).faults
        result }
{
    let sum = sum_of_all(alloc, names, folder)?;
    let Ok(text) = text_of(alloc, &sum) else {
        return Err(JoinFault::NoMemory);
    };
    match tell(&text, out) {
        Ok(()) => Ok(status_of(&sum)),
        Err(Failed) => Err(JoinFault::WriteFault),
    }
}
