//! The laws of what senders may complete with, and of plain evaluation.
//!
//! It stands on `plan_rules`, which has the definitions. It has no code: each function's contract
//! is a law over the definitions alone, for every list of nodes, arguments, record and stop state.
#![tactic(auto)]

mod cases;
mod settled;
mod stops;

pub use cases::nodes_follow_cases;
pub use settled::{calm_is_settled, settled_is_allowed};
pub use stops::may_covers;
