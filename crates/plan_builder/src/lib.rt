//! Plans by calls: a builder takes sender expressions node by node, and ends in a plan.
//!
//! It stands on `plan_shape`, whose definitions say which nodes a call adds, which it refuses and
//! why, and what makes a plan. Each call answers exactly these, unless it finds no memory; after a
//! refusal the builder is as it was. A node that is there already is given by `add`; the calls that
//! are named for the nodes make theirs and give it so.
#![tactic(auto)]

mod builder;
mod calls;
mod check;
mod finish;
mod named;
mod position;
mod push;
mod room;
mod tree;

pub use builder::PlanBuilder;
pub use plan_rules::{Context, Node, NodeId, Query, Settings};
pub use plan_shape::{BuildFault, Plan};
pub use push::Built;
