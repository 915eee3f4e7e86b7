//! Why a number isn't answered.
use std::alloc::AllocError;
use thiserror::Error;

/// Why no operation ran.
#[derive(Clone, Copy, Debug, PartialEq, Eq, Drop, Error)]
pub enum AddFault {
    /// There was no memory for the plan, its table or its loop.
    #[error("out of memory")]
    NoMemory,
    /// The table's only block wasn't free. No hand but one is there to take it, so no run is known
    /// that ends so; but `sync_wait` promises no block, and what isn't promised has to be answered.
    #[error("no block is free")]
    NoBlock,
}

impl From<AllocError> for AddFault {
    ghost use Rattle.std.specs.Prelude.{◌≡◌};
    ghost use Rattle.by_example.specs.declared.fault.AddFault.TheVariants.{NoMemory};

    ghost from_gives = { λ _ fault. fault ≡ NoMemory };

    fn from(_: AllocError) -> AddFault {
        AddFault::NoMemory
    }
}
