//! What a part makes of its share.
ghost use Rattle.std.specs.Prelude.{◌≡◌, ◌<◌, ◌≤◌, [], ◌∷◌, length, IsTrue, IsOk, IfOk};
ghost use Rattle.exec_value.specs.declared.limits.TheConstants.{NUMBERS};
ghost use Rattle.exec_job.specs.Takes.{is_element};
ghost use Rattle.exec_job.specs.declared.job.Job.{Job};
ghost use Rattle.node_images.specs.Makes.{CompletesInPlace};
ghost use Rattle.plan_shape.specs.declared.limits.TheConstants.{BULK_PARTS};
ghost use Rattle.home_items.specs.Entries.{row_in};
ghost use Rattle.exec_bulk.specs.Elements.{share_ending, MakesEach};

use crate::rows::{Share, share_of};
use exec_job::{Added, Bounded, Divided, Element, Indexed, Job, Multiplied, Negated, Subtracted};
use exec_value::{Completion, Data, Datum, NUMBERS, Nums};
use node_images::error_at;
use std::alloc::{AllocError, Global};

/// What the job makes of the share of this number of the row that a part carries. An error where
/// there is no memory for that.
#[inline(always)]
pub(crate) fn end_share(
    alloc: Global,
    job: &Job,
    row: &Data,
    part: u32,
) -> Result<Completion, AllocError>
    requires element { IsTrue (is_element job.now) }
    requires row { row.now ≡ Datum.Row (row_in row.now) ∷ [] }
    requires part { part < BULK_PARTS }
    ensures exact { IfOk result (λ done. done ≡ share_ending job.now row.now part) }
    ensures in_place { CompletesInPlace (share_ending job.now row.now part) → IsOk result }
{
    match row.as_slice() {
        [Datum::Row(row)] => {
            let Share { numbers, first } = share_of(row.as_slice(), part);
            make_share(alloc, job, first, numbers)
        }
        _ => unreachable!(),
    }
}

/// What the job makes of the numbers, the first of which has this index in the whole row. The job
/// is matched here alone, once for all of them.
fn make_share(
    alloc: Global,
    job: &Job,
    first: u32,
    numbers: &[i64],
) -> Result<Completion, AllocError>
    requires element { IsTrue (is_element job.now) }
    requires few { length numbers.now ≤ NUMBERS }
    requires first { first ≤ NUMBERS }
    ensures { MakesEach job.now first numbers.now result }
{
    match job {
        Job::Add(n) => make_each(alloc, &Added(*n), first, numbers),
        Job::Sub(n) => make_each(alloc, &Subtracted(*n), first, numbers),
        Job::Mul(n) => make_each(alloc, &Multiplied(*n), first, numbers),
        Job::Div(n) => make_each(alloc, &Divided(*n), first, numbers),
        Job::Neg => make_each(alloc, &Negated, first, numbers),
        Job::Within { lo, hi } => make_each(alloc, &Bounded { lo: *lo, hi: *hi }, first, numbers),
        Job::Index => make_each(alloc, &Indexed, first, numbers),
        _ => unreachable!(),
    }
}

/// The row of what the element job makes of each number; or the error of the first that fails. A
/// short name of that wants no memory.
#[inline(never)]
fn make_each<E: Element>(
    alloc: Global,
    element: &E,
    first: u32,
    numbers: &[i64],
) -> Result<Completion, AllocError>
    requires few { length numbers.now ≤ NUMBERS }
    requires first { first ≤ NUMBERS }
    ensures { MakesEach (E.job element.now) first numbers.now result }
{
    if let [number] = numbers {
        return make_one(alloc, element, first, *number);
    }
    let Ok(mut made) = Vec::with_capacity(alloc, numbers.len()) else {
        return fail_first(alloc, element, first, numbers);
    };
    for (place, number) in numbers.iter().enumerate() {
        let index = first + place as u32;
        match element.at(index, *number) {
            Ok(number) => made.push_reserved(number),
            Err(fault) => return Ok(Completion::error(error_at(alloc, fault, index)?)),
        }
    }
    let row = Datum::Row(Nums::from_vec(made)?);
    Ok(Completion::Value(Data::one(alloc, row)))
}

/// The row of what the element job makes of one number, or its error. The row wants no memory.
#[inline(always)]
fn make_one<E: Element>(
    alloc: Global,
    element: &E,
    first: u32,
    number: i64,
) -> Result<Completion, AllocError>
    requires first { first ≤ NUMBERS }
    ensures { MakesEach (E.job element.now) first (number ∷ []) result }
{
    match element.at(first, number) {
        Ok(number) => {
            let row = Datum::Row(Nums::one(number));
            Ok(Completion::Value(Data::one(alloc, row)))
        }
        Err(fault) => Ok(Completion::error(error_at(alloc, fault, first)?)),
    }
}

/// The error of the first number that fails, where there is no memory for the row.
fn fail_first<E: Element>(
    alloc: Global,
    element: &E,
    first: u32,
    numbers: &[i64],
) -> Result<Completion, AllocError>
    requires few { length numbers.now ≤ NUMBERS }
    requires first { first ≤ NUMBERS }
    ensures { MakesEach (E.job element.now) first numbers.now result }
{
    for (place, number) in numbers.iter().enumerate() {
        let index = first + place as u32;
        match element.at(index, *number) {
            Ok(_) => {}
            Err(fault) => return Ok(Completion::error(error_at(alloc, fault, index)?)),
        }
    }
    Err(AllocError)
}
