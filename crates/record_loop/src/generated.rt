//! Generated records, as a source of their bytes.
//!
//!     number --show--> a line, and a line feed --give--> the buffer of a read
ghost use Rattle.std.specs.Prelude.{◌≡◌, ◌≤◌, ◌<◌, ◌==◌, ◌++◌, ◌∷◌, [], IfOk, IsOkAnd, length, min, take, drop, vec_capacity};
ghost use Rattle.std.specs.Io.{ReadsAtMost};
ghost use Rattle.std.specs.Io.KnownBytes.{ReadConsumes};
ghost use Rattle.exec_io.specs.Causes.{HasCause};
ghost use Rattle.record_lines.specs.declared.ending.End.{End};
ghost use Rattle.record_lines.specs.declared.limits.TheConstants.{MOST_RECORDS, LINE_FEED};
ghost use Rattle.record_lines.specs.Records.{records_of, IsBeyond};
ghost use Rattle.record_loop.specs.Generated.{generated, shown_as, generated_lines, generated_text, text_after, steady_view};

use exec_io::{Failed, Source};
use exec_value::Kind;
use itoa::Buffer;
use record_lines::{LINE_FEED, MOST_RECORDS};
use std::alloc::{AllocError, Global};
use std::marker::Model;

/// More bytes than the line of any generated record has.
const LINE: usize = 64;

/// The number that the record of this number shows.
fn number_shown(number: u32) -> u32
    requires { number ≤ MOST_RECORDS }
    ensures { result ≡ generated number }
{
    ((7919 * u64::from(number) + 17) % 100_003) as u32
}

/// Puts a number as a record of this kind, and a line feed, into a line, in the room that it has.
fn show(kind: Kind, number: u32, line: &mut Vec<u8>)
    requires room { LINE ≤ vec_capacity line.old }
    ensures room { LINE ≤ vec_capacity line.new }
    ensures items { line.new.items ≡ shown_as kind number ++ LINE_FEED ∷ [] }
{
    let mut buffer = Buffer::new();
    let digits = buffer.format(number).as_bytes();
    line.clear();
    match kind {
        Kind::Row => {
            line.push(b'[').unwrap();
            line.extend_from_slice(digits).unwrap();
            line.push(b']').unwrap();
        }
        Kind::Int | Kind::Text | Kind::MaybeInt | Kind::MaybeText => {
            line.extend_from_slice(digits).unwrap();
        }
    }
    line.push(LINE_FEED).unwrap();
}

/// Copies as many bytes into the front of `buf` as there is room for, and says how many.
fn fill(buf: &mut [u8], bytes: &[u8]) -> usize
    ensures count { result ≡ min (length bytes.now) (length buf.old) }
    ensures bytes { buf.new ≡ take result bytes.now ++ drop result buf.old }
{
    let count = bytes.len().min(buf.len());
    buf[..count].copy_from_slice(&bytes[..count]);
    count
}

/// The line of the record that is being read, with its line feed.
#[derive(Drop)]
struct Line {
    bytes: Vec<u8>,
    /// How many of its bytes were given.
    given: usize,
}

/// Contracts see the bytes that are left of it.
impl Model for Line {
    ghost use Rattle.std.specs.Prelude.{◌≤◌, List, ℕ, drop, length, vec_capacity};
    ghost use Rattle.record_loop.specs.declared.generated.TheConstants.{LINE};

    ghost Value = { List ℕ };

    ghost view = { λ l. drop l.given l.bytes.items };

    ghost invariant = { λ l. (l.given ≤ length l.bytes.items) × (LINE ≤ vec_capacity l.bytes) };
}

impl Line {
    /// A line of which nothing is left, with room for any.
    fn new(alloc: Global) -> Result<Line, AllocError>
        ensures { IfOk result (λ line. line ≡ []) }
    {
        Ok(Line {
            bytes: Vec::with_capacity(alloc, LINE)?,
            given: 0,
        })
    }

    /// Whether nothing is left.
    fn is_empty(&self) -> bool
        ensures { result ≡ (length self.now == 0) }
    {
        self.given == self.bytes.len()
    }

    /// The line of the record of this kind that shows a number.
    fn show(&mut self, kind: Kind, number: u32)
        ensures { self.new ≡ shown_as kind number ++ LINE_FEED ∷ [] }
    {
        show(kind, number, &mut self.bytes);
        self.given = 0;
    }

    /// Gives as many bytes into the front of `buf` as are left, or as there is room for.
    fn give(&mut self, buf: &mut [u8]) -> usize
        ensures count { result ≡ min (length self.old) (length buf.old) }
        ensures bytes { buf.new ≡ take result self.old ++ drop result buf.old }
        ensures left { self.new ≡ drop result self.old }
    {
        let count = fill(buf, &self.bytes[self.given..]);
        self.given += count;
        count
    }
}

/// The first records of a kind, each of which shows a number, as a source of their bytes. It keeps
/// one line, and reads that never fail fill their buffers as far as bytes are left.
#[derive(Drop)]
pub struct Generated {
    kind: Kind,
    /// How many records there are.
    count: u32,
    /// How many of them had their line.
    shown: u32,
    line: Line,
}

/// Contracts see the bytes that are left.
impl Model for Generated {
    ghost use Rattle.std.specs.Prelude.{◌≤◌, ◌++◌, List, ℕ};
    ghost use Rattle.record_lines.specs.declared.limits.TheConstants.{MOST_RECORDS};
    ghost use Rattle.record_loop.specs.Generated.{text_after};

    ghost Value = { List ℕ };

    ghost view = { λ g. g.line ++ text_after g.shown g.kind g.count };

    ghost invariant = { λ g. (g.shown ≤ g.count) × (g.count ≤ MOST_RECORDS) };
}

impl Generated {
    /// The first `count` records of a kind, of which nothing is read yet. All the memory that they
    /// take is taken here.
    pub fn new(alloc: Global, kind: Kind, count: u32) -> Result<Generated, AllocError>
        requires few { count ≤ MOST_RECORDS }
        ensures text { IfOk result (λ made. made ≡ generated_text kind count) }

        // The records of these bytes are the generated ones, and they pass no limit.
        ensures lines { records_of (generated_text kind count) End.Ended
            ≡ generated_lines kind count }
        ensures within { ¬ IsBeyond (generated_text kind count) }
    {
        Ok(Generated {
            kind,
            count,
            shown: 0,
            line: Line::new(alloc)?,
        })
    }

    /// Gives bytes into the front of `buf`, of which there are none only where none is left.
    fn give(&mut self, buf: &mut [u8]) -> usize
        requires some { 0 < length buf.old }
        ensures few { result ≤ length buf.new }
        ensures bytes { self.old ≡ take result buf.new ++ self.new }
        ensures ended { result ≡ 0 → self.new ≡ [] }
    {
        if self.line.is_empty() {
            if self.shown == self.count {
                return 0;
            }
            self.shown += 1;
            self.line.show(self.kind, number_shown(self.shown));
        }
        self.line.give(buf)
    }
}

impl Source for Generated {
    ghost told = { steady_view };

    fn read(&mut self, buf: &mut [u8]) -> Result<usize, Failed>
        requires { 0 < length buf.old }
        ensures bound { ReadsAtMost result buf.new }
        ensures bytes { ReadConsumes (steady_view self.old).left (steady_view self.new).left
            result buf.new }
        ensures cause { HasCause (steady_view self.old).faults (steady_view self.new).faults
            result }

        // It never fails, and gives what there is room for.
        ensures full { IsOkAnd result (λ n. n ≡ min (length self.old) (length buf.old)) }
    {
        let mut filled = 0;
        'filling: while filled < buf.len() {
            let given = self.give(&mut buf[filled..]);
            if given == 0 {
                break;
            }
            filled += given;
        }
        Ok(filled)
    }
}
