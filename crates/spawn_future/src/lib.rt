//! Futures of a scope (P3149, `spawn_future`): operations that hand 0 of a running table starts for
//! an owner ahead of their results, each with an association of the scope, and polls or abandons
//! later. The owners are the `ahead` nodes of operations, which `turn` serves.
//!
//! It stands on count_scope for the associations, on node_walks, which starts and ends an
//! operation, and on serve_ahead, which takes an `ahead` and goes on with it. It keeps one promise:
//! each future that is kept has an association of its own and a block of its own, whose root's
//! start the hand has noted, until `poll`, `sweep` or `turn` ends it. Then its block is given back,
//! and after that its association is left. What `poll` gives is want of memory, or allowed for the
//! child that the start names.
//!
//!     spawn --associate--> association --begin_root-----------> kept for its owner
//!        |                                                              |          |
//!        +--Full, Scope, NoBlock--> the environment comes back     poll |          | abandon
//!                                                                       v          v
//!                         Ready: block given back, association left <---+      abandoned
//!                                                                                  | sweep
//!                         its completion is dropped, block and association too <---+
//!
//!     turn: a parked `ahead` --> its first child is spawned, its second started, it waits parked
//!           its second is done --> poll, and it completes with both; or abandon, with the failure
//!
//! An abandoned operation runs to its end: no stop is requested of it. Between two calls the hand
//! is at rest. No call after `open` wants memory but what a step of a node takes.
#![tactic(auto)]

mod again;
mod entering;
mod future;
mod futures;
mod law;
mod limits;
mod naming;
mod polling;
mod serving;
mod slots;
mod spawning;
mod sweeping;
mod turning;

pub use exec_recv::{Env, Gate, Item, Stepper};
pub use futures::Futures;
pub use law::limits_of_futures;
pub use limits::MOST_FUTURES;
pub use node_walks::Mail;
pub use op_slot::{Hand, OpTable};
pub use polling::Polled;
pub use spawning::SpawnFault;
