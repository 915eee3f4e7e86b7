//! The steps of a running table: what each needs of the hand that makes it, and what it does to
//! what the hand knows and has.
//!
//! It stands on table_rules, whose views and homes a step changes. The definitions are in specs/;
//! the types here are those that the steps' contracts name. table_kept proves that each step keeps
//! the rule, and op_table makes them.
#![tactic(auto)]

mod block;
mod remains;
mod report;
mod shape;

pub use block::Block;
pub use remains::Remains;
pub use report::Report;
pub use shape::Shape;
