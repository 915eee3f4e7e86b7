//! What a node makes of the completion of its child, or completes with where it has none.
//!
//! It stands on `exec_value` and `exec_job`, whose completions and jobs these are, and on
//! `plan_rules`, which says what each node makes. Each call puts what it makes in the place that it
//! is given, where its child's completion stood: no completion is moved on the way up. Plain
//! evaluation and the operations of the running table are made of these calls, so a node makes the
//! same in both.
//!
//! What a call wants memory for is told by `Makes`: never for what stands in place.
#![tactic(auto)]

mod adaptor;
mod bulk;
mod channel;
mod join;
mod leaf;
mod pick;

pub use adaptor::{stopped_as_error, stopped_as_optional, then, upon_error, upon_stopped};
pub use bulk::{apply_to_row, error_at};
pub use channel::{take_error, take_stopped, take_value};
pub use join::{NoRoom, Together, join_child, no_children, put_behind, put_together};
pub use leaf::{put_error, put_scheduled, put_shown, put_stopped, put_value};
pub use pick::pick_body;
