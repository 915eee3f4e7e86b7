//! Jobs that make rows and sums.
ghost use Rattle.std.specs.Prelude.{◌≡◌, ◌≤◌, length};
ghost use Rattle.exec_value.specs.Sum.{sum_of_data};
ghost use Rattle.exec_value.specs.declared.limits.TheConstants.{DATA};
ghost use Rattle.exec_job.specs.Answer.{Gives};
ghost use Rattle.exec_job.specs.Apply.{iota};
ghost use Rattle.exec_job.specs.Element.{fitting};

use crate::fault::JobFault;
use exec_value::{Completion, Data, Datum, NUMBERS, Nums, Txt, sum_data};
use std::alloc::{AllocError, Global};

/// The row of the numbers 0 to x - 1.
pub(crate) fn iota(alloc: Global, x: i64) -> Result<Completion, AllocError>
    ensures { Gives (iota x) result }
{
    if x < 0 || x > NUMBERS as i64 {
        return Ok(Completion::error(Txt::short(alloc, "out-of-range")));
    }
    let count = x as usize;
    let mut numbers = Vec::with_capacity(alloc, count)?;
    for n in 0..count {
        numbers.push_reserved(n as i64);
    }
    let row = Datum::Row(Nums::from_vec(numbers)?);
    Ok(Completion::Value(Data::one(alloc, row)))
}

/// The exact sum of all numbers.
pub(crate) fn sum(operands: &[Datum]) -> Result<i64, JobFault>
    requires { length operands.now ≤ DATA }
    ensures { result ≡ fitting (sum_of_data operands.now) }
{
    i64::try_from(sum_data(operands)).map_err(|_| JobFault::Overflow)
}
