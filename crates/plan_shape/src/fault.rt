//! Why there is no node, or no plan.
use plan_rules::NodeId;
use std::alloc::AllocError;
use thiserror::Error;

/// Why a builder refuses a call, or a plan. Of several causes the earliest of this list is
/// answered.
#[derive(Clone, Copy, Debug, PartialEq, Eq, Drop, Error)]
pub enum BuildFault {
    /// A `when_all` has fewer than 2 or more than 64 children, or a let no body or more than 16.
    #[error("too few or too many children")]
    TooManyChildren,
    /// The node isn't one of the builder's, has a parent, or is named twice.
    #[error("node {0} can't be named here")]
    UsedChild(NodeId),
    /// There would be more than 1,024 nodes, or there are more than 256 in a plan of version 1.
    #[error("too many nodes")]
    TooManyNodes,
    /// A path from the node down to a leaf would have more than 56 nodes.
    #[error("too deep")]
    TooDeep,
    /// The node has no parent and isn't the root.
    #[error("node {0} is loose")]
    Loose(NodeId),
    /// The node is `unstoppable` or `ahead` in a plan of version 1.
    #[error("node {0} is of version 2")]
    Version(NodeId),
    /// The node is an `ahead` below a `when_all`, an `unstoppable` or another `ahead`.
    #[error("node {0} is misplaced")]
    Misplaced(NodeId),
    /// There was no memory.
    #[error("out of memory")]
    NoMemory,
}

impl From<AllocError> for BuildFault {
    ghost use Rattle.std.specs.Prelude.{◌≡◌};
    ghost use Rattle.plan_shape.specs.declared.fault.BuildFault.TheVariants.{NoMemory};

    ghost from_gives = { λ _ fault. fault ≡ NoMemory };

    fn from(_: AllocError) -> BuildFault {
        BuildFault::NoMemory
    }
}
