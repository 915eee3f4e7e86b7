//! Why bytes are no plan.
use std::alloc::AllocError;
use thiserror::Error;

/// Why bytes are no plan. Of several causes the earliest of this list is answered, want of memory
/// aside.
#[derive(Clone, Copy, Debug, PartialEq, Eq, Drop, Error)]
pub enum PlanFault {
    /// There are more than 1,048,576 bytes.
    #[error("P1 too long")]
    TooLong,
    /// The bytes are no UTF-8, no JSON, or nest more than 127 deep.
    #[error("P2 not JSON")]
    NotJson,
    /// A value has another JSON type, a needed key is missing, or an error name is none.
    #[error("P3 form")]
    Form,
    /// A key, a node, a job, a kind, a context, a query, a rule or a version isn't known.
    #[error("P4 unknown name")]
    UnknownName,
    /// A number, a length or a count is outside its limits, or an `ahead` stands where none may.
    #[error("P5 limit")]
    Limit,
    /// The kinds of a node don't match.
    #[error("P6 kinds")]
    Kinds,
    /// A simple scope has no stop rules.
    #[error("P7 settings exclude each other")]
    Excluded,
    /// There was no memory.
    #[error("out of memory")]
    NoMemory,
}

impl From<AllocError> for PlanFault {
    ghost use Rattle.std.specs.Prelude.{◌≡◌};
    ghost use Rattle.plan_reader.specs.declared.fault.PlanFault.TheVariants.{NoMemory};

    ghost from_gives = { λ _ fault. fault ≡ NoMemory };

    fn from(_: AllocError) -> PlanFault {
        PlanFault::NoMemory
    }
}
