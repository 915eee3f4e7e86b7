//! A job on each element of a row ([exec.bulk]).
ghost use Rattle.std.specs.Prelude.{◌≡◌, ◌≤◌, ◌++◌, length, codes, IsTrue, IsOk, IfOk, OnOk};
ghost use Rattle.exec_value.specs.declared.limits.TheConstants.{INLINE_BYTES, NUMBERS};
ghost use Rattle.exec_job.specs.Fault.{name_of};
ghost use Rattle.exec_job.specs.Takes.{is_element};
ghost use Rattle.plan_rules.specs.Bulks.{bulk_of, each_of, error_at, row_ending};

use exec_job::{Job, JobFault, apply_at};
use exec_value::{Completion, Data, Datum, Nums, Txt};
use itoa::Buffer;
use std::alloc::{AllocError, Global};

/// One row becomes what the job makes of its elements.
pub fn apply_to_row(alloc: Global, job: &Job, done: &mut Completion) -> Result<(), AllocError>
    requires { IsTrue (is_element job.now) }
    ensures { OnOk result (done.new ≡ bulk_of job.now done.old) }
{
    let made = match done {
        Completion::Value(values) => match values.as_slice() {
            [Datum::Row(row)] => each(alloc, job, row.as_slice())?,
            _ => return Ok(()),
        },
        _ => return Ok(()),
    };
    done.put(made);
    Ok(())
}

/// The row of what the job makes of each number at its index, or the error of the first that fails.
fn each(alloc: Global, job: &Job, numbers: &[i64]) -> Result<Completion, AllocError>
    requires element { IsTrue (is_element job.now) }
    requires few { length numbers.now ≤ NUMBERS }
    ensures { IfOk result (λ c. c ≡ row_ending (each_of job.now 0 numbers.now)) }
{
    let mut made = Vec::with_capacity(alloc, numbers.len())?;
    for (index, number) in numbers.iter().enumerate() {
        match apply_at(job, index as u32, *number) {
            Ok(number) => made.push_reserved(number),
            Err(fault) => return Ok(Completion::error(error_at(alloc, fault, index as u32)?)),
        }
    }
    let row = Datum::Row(Nums::from_vec(made)?);
    Ok(Completion::Value(Data::one(alloc, row)))
}

/// The name of an element's error: the fault's, `@` and the element's index. One of at most 22
/// bytes wants no memory.
pub fn error_at(alloc: Global, fault: JobFault, index: u32) -> Result<Txt, AllocError>
    ensures exact { IfOk result (λ name. name ≡ error_at (name_of fault) index) }
    ensures in_place { length (error_at (name_of fault) index) ≤ INLINE_BYTES → IsOk result }
{
    let mut name = Txt::short(alloc, fault.name());
    name.append(&Txt::short(alloc, "@"))?;
    let mut buffer = Buffer::new();
    name.append(&Txt::short(alloc, buffer.format(index)))?;
    Ok(name)
}
