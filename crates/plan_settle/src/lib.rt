//! Plain evaluation: what a plan completes with for one record, where one thread evaluates it.
//!
//! It stands on `plan_shape`, whose plans it evaluates, on `plan_rules`, which says what plain
//! evaluation gives, on `node_images`, which makes each node's completion, and on the laws of
//! `plan_laws` and `plan_kinds`: where the kinds of a plan match, no operand is ever wrong.
//! `settle` and `settle_asked` give exactly the settled completion, and never want memory that
//! isn't there for a small plan.
#![tactic(auto)]

mod evaluation;
mod settling;

pub use settling::{settle, settle_asked};
