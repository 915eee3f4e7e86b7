//! Run rules: which lines are lawful for a plan's records, and when a stop reaches a record.
//!
//!     Plan --terms_of--> Terms: what it asks of the lines
//!     lines --stop_state--> Never, May or Stands for each record, by the finished lines alone
//!     Moment --license--> what a record may have seen of the one request that was made
//!
//! `Lawful` is the promise of a run: one line a record, each a completion that the plan allows in
//! the record's stop state. A run doesn't know that state while it runs, since it speaks of lines
//! that come later. It keeps that each line is `Licensed` by the moment of its request, and that
//! the request is made when it is due (`IsCaused`); the laws of proofs/ say that then all lines are
//! lawful. It stands on plan_shape and on the laws of plan_laws.
#![tactic(auto)]

mod law;
mod settings;
mod window;

pub use law::limits_are;
pub use settings::may_run;
pub use window::{MOST_WITH_AHEAD, at_once, has_ahead};
