//! What plans are: sender expressions as lists of nodes, children before their parent.
//!
//! It stands on `plan_rules`, which says what the nodes mean, and on `node_tree`. The definitions
//! are in specs/: which nodes a builder adds and which it refuses, which nodes make a plan, and the
//! plan's tree. A `Plan` keeps `IsPlan`, so nothing above tests again what a builder tested.
#![tactic(auto)]

mod fault;
mod law;
mod limits;
mod plan;

pub use fault::BuildFault;
pub use law::limits_of_plans;
pub use limits::{
    BULK_PARTS, FEWEST_CHILDREN, MOST_BODIES, MOST_CHILDREN, MOST_DEPTH, MOST_FIRST_VERSION_NODES,
    MOST_PLAN_NODES, MOST_STOP_AFTER, MOST_TURNS,
};
pub use plan::Plan;
