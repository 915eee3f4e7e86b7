//! The kinds that flow through a sender expression.
//!
//! It stands on `plan_rules`, which has the nodes, on `plan_shape`, which has the plans, and on the
//! laws of `plan_laws`. The definitions are in specs/: `sig_of` says what a node's value can be and
//! how else it may complete, by the kinds of its arguments, and `KindsMatch` when all nodes of a
//! plan fit together. Kinds are kept (`kinds_kept`): no node of such a plan completes otherwise
//! than its signature says. Each node of a plan has one (`nodes_run_under_one_shape`).
#![tactic(auto)]

mod kind_list;
mod law;
mod sig;

pub use kind_list::KindList;
pub use law::{
    jobs_keep_kinds, kinds_kept, nodes_run_under_one_shape, plans_are_built, signed_by_case,
    trees_show_plans,
};
pub use sig::Sig;
