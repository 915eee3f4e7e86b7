//! Why an operation on a number gives none.
ghost use Rattle.std.specs.Prelude.{◌≡◌};

/// Why an operation on a number gives none.
#[derive(Clone, Copy, Debug, PartialEq, Eq)]
pub enum JobFault {
    /// The result is outside the range of an `i64`.
    Overflow,
    /// The divisor is 0.
    ZeroDivisor,
    /// The number is outside the range that the job asks for.
    OutOfRange,
}

impl JobFault {
    ghost use Rattle.exec_job.specs.Fault.{name_of};

    /// The name of the error that an operation by itself ends with.
    pub fn name(self) -> &'static str
        ensures { result.now ≡ name_of self }
    {
        match self {
            JobFault::Overflow => "overflow",
            JobFault::ZeroDivisor => "zero-divisor",
            JobFault::OutOfRange => "out-of-range",
        }
    }
}
