//! How a summary is written, and how one is read.
ghost use Rattle.std.specs.Prelude.{◌≡◌, ◌≢◌, ◌<◌, ◌^◌, ◌++◌, ◌∷◌, List, ℕ, ℤ, Some, None, IfOk, IfErr, IsSomeAnd, MatchOption, FitsSigned, OnOk, decimal};
ghost use Rattle.std.specs.Fmt.{signed_decimal};
ghost use Rattle.std.specs.Int.{w128};
ghost use Rattle.exec_value.specs.Bytes.{blank};
ghost use Rattle.join_commands.specs.Reads.{count_before, CutsAt, HasCount, HasNoBlank, HasThree, HasWord};
ghost use Rattle.join_commands.specs.Summaries.{named_count, summary_text, FitSummary, DoAgree};
ghost use Rattle.join_commands.specs.Unsummed.{IsUnreadSummary};
ghost use Rattle.join_commands.specs.declared.fault.LookFault.TheVariants.{ReadFault};
ghost use Rattle.join_commands.specs.declared.summary.Numbers.{Numbers};

use crate::fault::LookFault;
use crate::refusal::Cause;
use crate::summary::{Numbers, contradiction_of};
use itoa::Buffer;
use memchr::memchr;
use std::alloc::{AllocError, Global};

/// The bytes before a blank, and those behind it.
#[derive(Clone, Copy)]
pub(crate) struct Word<'a> {
    pub(crate) word: &'a [u8],
    pub(crate) rest: &'a [u8],
}

/// A count, and the bytes behind it.
#[derive(Clone, Copy)]
pub(crate) struct Count<'a> {
    pub(crate) count: u64,
    pub(crate) rest: &'a [u8],
}

/// Three counts, and the bytes behind them.
#[derive(Clone, Copy)]
pub(crate) struct Three<'a> {
    pub(crate) first: u64,
    pub(crate) second: u64,
    pub(crate) third: u64,
    pub(crate) rest: &'a [u8],
}

/// Adds a count with its name to the text of a summary.
fn push_count(text: &mut Vec<u8>, name: &[u8], count: u64) -> Result<(), AllocError>
    ensures { OnOk result (text.new.items ≡ text.old.items ++ named_count name.now count) }
{
    let mut buffer = Buffer::new();
    text.extend_from_slice(name)?;
    text.extend_from_slice(buffer.format(count).as_bytes())
}

/// The text of a summary with these numbers.
pub(crate) fn text_of(alloc: Global, numbers: &Numbers) -> Result<Vec<u8>, AllocError>
    ensures { IfOk result (λ text. text.items ≡ summary_text numbers.now) }
{
    let mut buffer = Buffer::new();
    let mut text = Vec::new(alloc);
    push_count(&mut text, b"records ", numbers.records)?;
    push_count(&mut text, b" values ", numbers.values)?;
    push_count(&mut text, b" errors ", numbers.errors)?;
    push_count(&mut text, b" stopped ", numbers.stopped)?;
    push_count(&mut text, b" out-of-memory ", numbers.no_memory)?;
    push_count(&mut text, b" bad ", numbers.bad)?;
    text.extend_from_slice(b" sum ")?;
    text.extend_from_slice(buffer.format(numbers.sum).as_bytes())?;
    text.extend_from_slice(b"\n")?;
    Ok(text)
}

/// Where the first blank is.
fn first_blank(text: &[u8]) -> Option<usize>
    ensures { MatchOption result (HasNoBlank text.now) (CutsAt text.now) }
{
    memchr(b' ', text)
}

/// The bytes before the first blank, and those behind it.
fn cut_word(text: &[u8]) -> Option<Word<'_>>
    ensures { (word more : List ℕ) → HasNoBlank word → text.now ≡ word ++ blank ∷ more
        → IsSomeAnd result (HasWord word more) }
{
    match first_blank(text) {
        Some(end) => Some(Word {
            word: &text[..end],
            rest: &text[end + 1..],
        }),
        None => None,
    }
}

/// The number that these digits write.
fn read_number(digits: &[u8]) -> Option<u64>
    ensures { (number : ℕ) → number < 2 ^ 64 → digits.now ≡ decimal number
        → result ≡ Some number }
{
    match str::from_utf8(digits) {
        Ok(digits) => digits.parse::<u64>().ok(),
        Err(_) => None,
    }
}

/// The number that these digits write, with `-` before them where it is below 0.
fn read_signed(digits: &[u8]) -> Option<i128>
    ensures { (number : ℤ) → FitsSigned w128 number → digits.now ≡ signed_decimal number
        → result ≡ Some number }
{
    match str::from_utf8(digits) {
        Ok(digits) => digits.parse::<i128>().ok(),
        Err(_) => None,
    }
}

/// The count that stands behind a name, and what stands behind it.
fn read_count(text: &[u8]) -> Option<Count<'_>>
    ensures { (name : List ℕ) (count : ℕ) (more : List ℕ) →
        HasNoBlank name → count < 2 ^ 64
        → text.now ≡ count_before name count more → IsSomeAnd result (HasCount count more) }
{
    let name = cut_word(text)?;
    let digits = cut_word(name.rest)?;
    let count = read_number(digits.word)?;
    Some(Count {
        count,
        rest: digits.rest,
    })
}

/// Three counts behind their names, and what stands behind them.
fn read_three(text: &[u8]) -> Option<Three<'_>>
    ensures { (a b c : List ℕ) (first second third : ℕ) (more : List ℕ)
        → HasNoBlank a → HasNoBlank b → HasNoBlank c
        → first < 2 ^ 64 → second < 2 ^ 64 → third < 2 ^ 64
        → text.now ≡ count_before a first (count_before b second (count_before c third more))
        → IsSomeAnd result (HasThree first second third more) }
{
    let first = read_count(text)?;
    let second = read_count(first.rest)?;
    let third = read_count(second.rest)?;
    Some(Three {
        first: first.count,
        second: second.count,
        third: third.count,
        rest: third.rest,
    })
}

/// The numbers that stand where a summary has its numbers.
fn read_numbers(text: &[u8]) -> Option<Numbers>
    ensures { (numbers : Numbers) → FitSummary numbers → text.now ≡ summary_text numbers
        → result ≡ Some numbers }
{
    let line = text.strip_suffix(b"\n")?;
    let front = read_three(line)?;
    let back = read_three(front.rest)?;
    let name = cut_word(back.rest)?;
    let sum = read_signed(name.rest)?;
    Some(Numbers {
        records: front.first,
        values: front.second,
        errors: front.third,
        stopped: back.first,
        no_memory: back.second,
        bad: back.third,
        sum,
    })
}

/// The numbers of the summary that this text is.
pub(crate) fn read_summary(alloc: Global, text: &[u8]) -> Result<Numbers, LookFault>
    ensures text { IfOk result (λ numbers. text.now ≡ summary_text numbers) }
    ensures agree { IfOk result DoAgree }
    ensures refused { IfErr result (IsUnreadSummary text.now) }
    ensures quiet { IfErr result (λ fault. fault ≢ ReadFault) }
{
    let Some(numbers) = read_numbers(text) else {
        return Err(LookFault::Refused(Cause::NoSummary));
    };
    match text_of(alloc, &numbers) {
        Ok(same) => {
            if same.as_slice() != text {
                return Err(LookFault::Refused(Cause::NoSummary));
            }
        }
        Err(AllocError) => return Err(LookFault::NoMemory),
    }
    match contradiction_of(&numbers) {
        Some(contradiction) => Err(LookFault::Refused(Cause::Contradicts(contradiction))),
        None => Ok(numbers),
    }
}
