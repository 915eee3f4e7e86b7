//! Element jobs: operations on one number at one index.
ghost use Rattle.std.specs.Prelude.{◌≡◌, IsTrue};
ghost use Rattle.exec_job.specs.Element.{at_index, quotient, within};
ghost use Rattle.exec_job.specs.Takes.{is_element};
ghost use Rattle.exec_job.specs.declared.job.Job.{Job};

use crate::fault::JobFault;
use crate::job::Job;

/// An element job as a type of its own. A loop that is generic over it is compiled for each of
/// them, and so asks for no number which job it is.
pub trait Element {
    /// The job that it is.
    ghost job: { Self → Job };

    /// The job on the number x at an index of a row. It takes no memory.
    fn at(&self, index: u32, x: i64) -> Result<i64, JobFault>
        ensures { result ≡ at_index (job self.now) index x };
}

/// x + n.
#[derive(Drop)]
pub struct Added(pub i64);

impl Element for Added {
    ghost job = { λ added. Job.Add added.0 };

    #[inline(always)]
    fn at(&self, _index: u32, x: i64) -> Result<i64, JobFault> {
        x.checked_add(self.0).ok_or(JobFault::Overflow)
    }
}

/// x - n.
#[derive(Drop)]
pub struct Subtracted(pub i64);

impl Element for Subtracted {
    ghost job = { λ subtracted. Job.Sub subtracted.0 };

    #[inline(always)]
    fn at(&self, _index: u32, x: i64) -> Result<i64, JobFault> {
        x.checked_sub(self.0).ok_or(JobFault::Overflow)
    }
}

/// x * n.
#[derive(Drop)]
pub struct Multiplied(pub i64);

impl Element for Multiplied {
    ghost job = { λ multiplied. Job.Mul multiplied.0 };

    #[inline(always)]
    fn at(&self, _index: u32, x: i64) -> Result<i64, JobFault> {
        x.checked_mul(self.0).ok_or(JobFault::Overflow)
    }
}

/// x / n.
#[derive(Drop)]
pub struct Divided(pub i64);

impl Element for Divided {
    ghost job = { λ divided. Job.Div divided.0 };

    #[inline(always)]
    fn at(&self, _index: u32, x: i64) -> Result<i64, JobFault> {
        quotient(x, self.0)
    }
}

/// -x.
#[derive(Drop)]
pub struct Negated;

impl Element for Negated {
    ghost job = { λ negated. Job.Neg };

    #[inline(always)]
    fn at(&self, _index: u32, x: i64) -> Result<i64, JobFault> {
        x.checked_neg().ok_or(JobFault::Overflow)
    }
}

/// x, where it is from `lo` to `hi`.
#[derive(Drop)]
pub struct Bounded {
    pub lo: i64,
    pub hi: i64,
}

impl Element for Bounded {
    ghost job = { λ bounded. Job.Within bounded.lo bounded.hi };

    #[inline(always)]
    fn at(&self, _index: u32, x: i64) -> Result<i64, JobFault> {
        within(self.lo, self.hi, x)
    }
}

/// x + its index.
#[derive(Drop)]
pub struct Indexed;

impl Element for Indexed {
    ghost job = { λ indexed. Job.Index };

    #[inline(always)]
    fn at(&self, index: u32, x: i64) -> Result<i64, JobFault> {
        x.checked_add(i64::from(index)).ok_or(JobFault::Overflow)
    }
}

/// An element job on the number x at an index of a row. It takes no memory.
#[inline(always)]
pub fn apply_at(job: &Job, index: u32, x: i64) -> Result<i64, JobFault>
    requires { IsTrue (is_element job.now) }
    ensures { result ≡ at_index job.now index x }
{
    match job {
        Job::Add(n) => Added(*n).at(index, x),
        Job::Sub(n) => Subtracted(*n).at(index, x),
        Job::Mul(n) => Multiplied(*n).at(index, x),
        Job::Div(n) => Divided(*n).at(index, x),
        Job::Neg => Negated.at(index, x),
        Job::Within { lo, hi } => Bounded { lo: *lo, hi: *hi }.at(index, x),
        Job::Index => Indexed.at(index, x),
        _ => unreachable!(),
    }
}

/// x / n, cut towards zero.
#[inline(always)]
fn quotient(x: i64, n: i64) -> Result<i64, JobFault>
    ensures { result ≡ quotient x n }
{
    if n == 0 {
        return Err(JobFault::ZeroDivisor);
    }
    x.checked_div(n).ok_or(JobFault::Overflow)
}

/// x, where it is from `lo` to `hi`.
#[inline(always)]
fn within(lo: i64, hi: i64, x: i64) -> Result<i64, JobFault>
    ensures { result ≡ within lo hi x }
{
    if lo <= x && x <= hi {
        Ok(x)
    } else {
        Err(JobFault::OutOfRange)
    }
}
