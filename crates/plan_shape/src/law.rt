//! How large a plan may be, in numbers.
ghost use Rattle.std.specs.Prelude.{◌≡◌};

use crate::limits::{
    BULK_PARTS, FEWEST_CHILDREN, MOST_BODIES, MOST_CHILDREN, MOST_DEPTH, MOST_FIRST_VERSION_NODES,
    MOST_PLAN_NODES, MOST_STOP_AFTER, MOST_TURNS,
};

/// The limits of plans, of which all other contracts speak by name, are these numbers.
pub fn limits_of_plans()
    ensures nodes { MOST_PLAN_NODES ≡ 1_024 }
    ensures first_version_nodes { MOST_FIRST_VERSION_NODES ≡ 256 }
    ensures depth { MOST_DEPTH ≡ 56 }
    ensures fewest_children { FEWEST_CHILDREN ≡ 2 }
    ensures most_children { MOST_CHILDREN ≡ 64 }
    ensures bodies { MOST_BODIES ≡ 16 }
    ensures parts { BULK_PARTS ≡ 8 }
    ensures turns { MOST_TURNS ≡ 1_000_000 }
    ensures stop_after { MOST_STOP_AFTER ≡ 1_000_000 }
{}
