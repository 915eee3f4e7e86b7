//! Why parts aren't joined, and what is told of it.
ghost use Rattle.std.specs.Prelude.{◌≡◌, ◌≤◌, ◌++◌, [], codes, decimal, OnOk, OnErr};
ghost use Rattle.std.specs.List.{flat_map};
ghost use Rattle.exec_io.specs.Writing.{Puts};
ghost use Rattle.exec_status.specs.Sinks.{Tells, TellsAll, TellsFront};
ghost use Rattle.join_commands.specs.Notes.{part_cause_text, contradiction_text, front_text, part_name_at, part_refusal_text};
ghost use Rattle.join_commands.specs.declared.refusal.Cause.TheVariants.{NotLine, StatusDiffers, StatusIsnt};
ghost use Rattle.join_commands.specs.declared.summary.Contradiction.TheVariants.{Records, Sum};

use crate::front::Front;
use crate::summary::Contradiction;
use exec_io::{Failed, Sink, put_bytes};
use exec_status::Status;
use itoa::Buffer;

/// Why a part is refused.
#[derive(Clone, Copy)]
pub(crate) enum Cause {
    /// The status of its run isn't there.
    NoStatus,
    /// That status isn't one of a run that came to its end.
    StatusIsnt(Front),
    /// What its run wrote isn't there.
    NoLines,
    /// The line of this number isn't that of its record.
    NotLine(u64),
    /// The first status is that of the run, and the second what its lines say.
    StatusDiffers(Status, Status),
    /// The line of this number wasn't dealt in turn, since the part at this place had ended before.
    NotDealt(u64, usize),
    /// It isn't the line of a summary.
    NoSummary,
    /// The numbers of its summary contradict each other.
    Contradicts(Contradiction),
    /// The sums with its numbers are too large.
    TooLarge,
    /// It isn't any more what was looked through.
    Changed,
}

/// Why the part at a place is refused.
#[derive(Clone, Copy)]
pub(crate) struct Refusal {
    pub(crate) at: usize,
    pub(crate) cause: Cause,
}

/// Tells why a part is refused, as far as notes take it.
pub(crate) fn tell_refusal<N: Sink>(names: &[&str], refusal: &Refusal, notes: &mut N)
    ensures later { (N.told notes.old).faults ≤ (N.told notes.new).faults }
    ensures tells { Tells (N.told notes.old) (N.told notes.new)
        (part_refusal_text names.now refusal.now) }
{
    let _ = put_refusal(names, refusal, notes);
}

/// Writes why a part is refused, and hands it on.
fn put_refusal<N: Sink>(names: &[&str], refusal: &Refusal, notes: &mut N) -> Result<(), Failed>
    ensures later { (N.told notes.old).faults ≤ (N.told notes.new).faults }
    ensures ok { OnOk result (TellsAll (N.told notes.old) (N.told notes.new)
        (part_refusal_text names.now refusal.now)) }
    ensures err { OnErr result (TellsFront (N.told notes.old) (N.told notes.new)
        (part_refusal_text names.now refusal.now)) }
{
    put_note(
        names,
        part_name_at(names, refusal.at),
        &refusal.cause,
        notes,
    )?;
    notes.finish()
}

/// Writes why the part of this name is refused.
fn put_note<N: Sink>(names: &[&str], name: &str, cause: &Cause, notes: &mut N) -> Result<(), Failed>
    ensures { Puts (N.told notes.old) (N.told notes.new) result
        (codes "refused: " ++ name.now ++ part_cause_text names.now name.now cause.now) }
{
    put_bytes(b"refused: ", notes)?;
    put_bytes(name.as_bytes(), notes)?;
    put_cause(names, name, cause, notes)
}

/// The name of the part at a place.
fn part_name_at<'a>(names: &[&'a str], at: usize) -> &'a str
    ensures { result.now ≡ part_name_at names.now at }
{
    match names.get(at) {
        Some(name) => *name,
        None => "",
    }
}

/// Writes what is told behind the name of a part that is refused.
fn put_cause<N: Sink>(
    names: &[&str],
    name: &str,
    cause: &Cause,
    notes: &mut N,
) -> Result<(), Failed>
    ensures { Puts (N.told notes.old) (N.told notes.new) result
        (part_cause_text names.now name.now cause.now) }
{
    match cause {
        Cause::NoStatus => put_bytes(b".status: No such file or directory\n", notes),
        Cause::NoLines => put_bytes(b".out: No such file or directory\n", notes),
        Cause::StatusIsnt(said) => put_said(said, notes),
        Cause::NotLine(number) => put_not_line(*number, notes),
        Cause::StatusDiffers(told, found) => put_differs(name, *told, *found, notes),
        Cause::NotDealt(number, at) => put_not_dealt(*number, part_name_at(names, *at), notes),
        Cause::NoSummary => put_bytes(b".out: this isn't a summary\n", notes),
        Cause::Contradicts(numbers) => put_contradiction(numbers, notes),
        Cause::TooLarge => put_bytes(b".out: the sums with its numbers are too large\n", notes),
        Cause::Changed => put_bytes(b".out: it was changed while it was read\n", notes),
    }
}

/// Writes texts one after another.
fn put_pieces<N: Sink>(pieces: &[&[u8]], notes: &mut N) -> Result<(), Failed>
    ensures { Puts (N.told notes.old) (N.told notes.new) result
        (flat_map (λ piece. piece.now) pieces.now) }
{
    for piece in pieces {
        put_bytes(*piece, notes)?;
    }
    Ok(())
}

fn put_said<N: Sink>(said: &Front, notes: &mut N) -> Result<(), Failed>
    ensures { Puts (N.told notes.old) (N.told notes.new) result
        (part_cause_text [] [] (StatusIsnt said.now)) }
{
    let front = front_text(said);
    let pieces: [&[u8]; 3] = [b".status: the status is ", front, b", and not 0, 1 or 4\n"];
    put_pieces(&pieces, notes)
}

/// What is told of the first bytes of a status.
fn front_text(said: &Front) -> &[u8]
    ensures { result.now ≡ front_text said.now }
{
    if said.count == 0 {
        b"missing"
    } else {
        &said.bytes[..said.count]
    }
}

fn put_not_line<N: Sink>(number: u64, notes: &mut N) -> Result<(), Failed>
    ensures { Puts (N.told notes.old) (N.told notes.new) result
        (part_cause_text [] [] (NotLine number)) }
{
    let mut buffer = Buffer::new();
    let digits = buffer.format(number).as_bytes();
    let pieces: [&[u8]; 5] = [
        b".out: line ",
        digits,
        b" isn't that of record ",
        digits,
        b"\n",
    ];
    put_pieces(&pieces, notes)
}

fn put_differs<N: Sink>(
    name: &str,
    told: Status,
    found: Status,
    notes: &mut N,
) -> Result<(), Failed>
    ensures { Puts (N.told notes.old) (N.told notes.new) result
        (part_cause_text [] name.now (StatusDiffers told found)) }
{
    let mut first = Buffer::new();
    let mut second = Buffer::new();
    let pieces: [&[u8]; 7] = [
        b".status: the status is ",
        first.format(told.code()).as_bytes(),
        b", but the lines of ",
        name.as_bytes(),
        b".out say ",
        second.format(found.code()).as_bytes(),
        b"\n",
    ];
    put_pieces(&pieces, notes)
}

fn put_not_dealt<N: Sink>(number: u64, ended: &str, notes: &mut N) -> Result<(), Failed>
    ensures { Puts (N.told notes.old) (N.told notes.new) result
        (codes ".out: line " ++ decimal number ++ codes " wasn't dealt in turn: " ++ ended.now
        ++ codes ".out has ended before\n") }
{
    let mut buffer = Buffer::new();
    let pieces: [&[u8]; 5] = [
        b".out: line ",
        buffer.format(number).as_bytes(),
        b" wasn't dealt in turn: ",
        ended.as_bytes(),
        b".out has ended before\n",
    ];
    put_pieces(&pieces, notes)
}

fn put_contradiction<N: Sink>(numbers: &Contradiction, notes: &mut N) -> Result<(), Failed>
    ensures { Puts (N.told notes.old) (N.told notes.new) result
        (contradiction_text numbers.now) }
{
    match numbers {
        Contradiction::Records(told, found) => put_records(*told, *found, notes),
        Contradiction::Sum(sum) => put_sum(*sum, notes),
    }
}

fn put_records<N: Sink>(told: u64, found: u128, notes: &mut N) -> Result<(), Failed>
    ensures { Puts (N.told notes.old) (N.told notes.new) result
        (contradiction_text (Records told found)) }
{
    let mut first = Buffer::new();
    let mut second = Buffer::new();
    let pieces: [&[u8]; 5] = [
        b".out: there are ",
        first.format(told).as_bytes(),
        b" records, and ",
        second.format(found).as_bytes(),
        b" by the sorts of lines\n",
    ];
    put_pieces(&pieces, notes)
}

fn put_sum<N: Sink>(sum: i128, notes: &mut N) -> Result<(), Failed>
    ensures { Puts (N.told notes.old) (N.told notes.new) result
        (contradiction_text (Sum sum)) }
{
    let mut buffer = Buffer::new();
    let pieces: [&[u8]; 3] = [
        b".out: the sum is ",
        buffer.format(sum).as_bytes(),
        b", and there are no values\n",
    ];
    put_pieces(&pieces, notes)
}
