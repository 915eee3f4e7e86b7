//! The row that a bulk cuts into parts.
ghost use Rattle.std.specs.Prelude.{◌≡◌, ◌<◌, ◌≤◌, min, [], ◌∷◌, length};
ghost use Rattle.std.specs.List.{range_with_len};
ghost use Rattle.exec_value.specs.declared.limits.TheConstants.{NUMBERS};
ghost use Rattle.plan_shape.specs.declared.limits.TheConstants.{BULK_PARTS};
ghost use Rattle.home_items.specs.Shares.{first_index, share_of};
ghost use Rattle.exec_bulk.specs.Rows.{numbers_in, parts_for, first_part};

use exec_value::{Completion, Data, Datum};
use plan_rules::NodeId;
use plan_shape::BULK_PARTS;
use std::alloc::Global;
use std::sync::Wait;
use step_parts::copy_waiting;

// No numbers.
fn no_numbers<'a>() -> &'a [i64]
    ensures { result.now ≡ [] }
{
    &[]
}

/// The numbers of data that are one row; of any other none.
pub(crate) fn numbers_at(values: &[Datum]) -> &[i64]
    ensures numbers { result.now ≡ numbers_in (Completion.Value values.now) }
    ensures few { length result.now ≤ NUMBERS }
{
    match values {
        [Datum::Row(row)] => row.as_slice(),
        _ => no_numbers(),
    }
}

/// The numbers of a completion that is one row; of any other none.
pub(crate) fn numbers_of(done: &Completion) -> &[i64]
    ensures numbers { result.now ≡ numbers_in done.now }
    ensures few { length result.now ≤ NUMBERS }
{
    match done {
        Completion::Value(values) => numbers_at(values.as_slice()),
        _ => no_numbers(),
    }
}

/// So many parts are begun for a row: one for each number, and eight at most.
pub(crate) fn parts_for(numbers: &[i64]) -> u32
    ensures { result ≡ parts_for numbers.now }
{
    parts_of(numbers.len())
}

/// The same for a row of so many numbers.
pub(crate) fn parts_of(room: usize) -> u32
    ensures { result ≡ min BULK_PARTS room }
{
    if room < BULK_PARTS as usize {
        room as u32
    } else {
        BULK_PARTS
    }
}

/// The part that stands first before this bulk.
pub(crate) fn first_part(bulk: NodeId) -> NodeId
    requires { BULK_PARTS ≤ bulk }
    ensures { result ≡ first_part bulk }
{
    bulk - BULK_PARTS
}

/// The nodes of the parts, of which this is the first.
pub(crate) fn part_nodes(first: NodeId) -> [NodeId; 8]
    requires within { first ≤ NUMBERS }
    ensures { result ≡ range_with_len first BULK_PARTS }
{
    [
        first,
        first + 1,
        first + 2,
        first + 3,
        first + 4,
        first + 5,
        first + 6,
        first + 7,
    ]
}

/// The row of a completion, which its parts share. It waits where a copy of a row wants memory,
/// which doesn't come.
#[inline(always)]
pub(crate) fn row_of<R: Wait>(rt: &R, alloc: Global, done: &Completion) -> Data
    requires { 1 ≤ length (numbers_in done.now) }
    ensures { result ≡ Datum.Row (numbers_in done.now) ∷ [] }
{
    match done {
        Completion::Value(values) => copy_waiting(rt, alloc, values),
        _ => unreachable!(),
    }
}

// The index of the first number of this share, in a row of so many.
#[inline(always)]
fn first_index(count: usize, part: u32) -> usize
    requires few { count ≤ NUMBERS }
    requires part { part ≤ BULK_PARTS }
    ensures { result ≡ first_index count part }
{
    let parts = BULK_PARTS as usize;
    let before = part as usize;
    before * (count / parts) + before.min(count % parts)
}

/// A part's share of a row.
#[derive(Drop)]
pub(crate) struct Share<'a> {
    pub numbers: &'a [i64],
    /// The index of the first of them in the row.
    pub first: u32,
}

/// The share of this number.
#[inline(always)]
pub(crate) fn share_of(numbers: &[i64], part: u32) -> Share<'_>
    requires few { length numbers.now ≤ NUMBERS }
    requires part { part < BULK_PARTS }
    ensures numbers { result.numbers.now ≡ share_of numbers.now part }
    ensures first { result.first ≡ first_index (length numbers.now) part }
{
    let first = first_index(numbers.len(), part);
    let next = first_index(numbers.len(), part + 1);
    Share {
        numbers: &numbers[first..next],
        first: first as u32,
    }
}
