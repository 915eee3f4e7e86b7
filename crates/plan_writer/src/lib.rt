//! Plans as plan files: each plan has one canonical text, and reading that text gives the plan.
//!
//!     Plan --plan_value--> serde_json::Value --to_vec--> bytes --plan_reader::read_plan--> Plan
//!
//! It stands on `plan_shape`, whose plans it writes, on `serde_json`, which writes the text, and on
//! the definitions of `plan_parts` and `plan_reader`, which say what the text is read as. The
//! definitions in specs/ are the tables of the plan language, one row each.
//!
//! Any plan is written. It is read back where a file can say it (`IsFilePlan`): its kinds match,
//! which `sig_check` tells, its settings don't exclude each other, and its nodes are numbered in
//! the order of a file, which `is_in_file_order` tells.
#![tactic(auto)]

mod below;
mod constant;
mod job;
mod member;
mod node;
mod order;
mod own;
mod plan;

pub use order::is_in_file_order;
pub use plan::write_plan;
