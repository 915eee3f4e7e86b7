//! Why a plan has no signatures.
use plan_rules::NodeId;
use std::alloc::AllocError;
use thiserror::Error;

/// Why a check refuses a plan.
#[derive(Clone, Copy, Debug, PartialEq, Eq, Drop, Error)]
pub enum SigFault {
    /// The node is the first in number order whose kinds don't match.
    #[error("the kinds of node {0} don't match")]
    Kinds(NodeId),
    /// There was no memory.
    #[error("out of memory")]
    NoMemory,
}

impl From<AllocError> for SigFault {
    ghost use Rattle.std.specs.Prelude.{◌≡◌};
    ghost use Rattle.sig_check.specs.declared.fault.SigFault.TheVariants.{NoMemory};

    ghost from_gives = { λ _ fault. fault ≡ NoMemory };

    fn from(_: AllocError) -> SigFault {
        SigFault::NoMemory
    }
}
