//! Serving an `ahead` that is parked (P3149, `spawn_future`): hand 0 takes it, and starts its
//! second child, completes it, or parks it again.
//!
//! It stands on step_parts, of whose calls each of these is made, on node_walks, by which the hand
//! goes on after it, and on the laws of start_laws. It keeps one promise: from a hand at rest to a
//! hand at rest, what it delivers is allowed by the plan for the node's start, where what its first
//! child's operation came to was allowed for that child.
//!
//!     parked --take_ahead--> at hand --put_back-----> parked
//!                              |  \---begin_second--> its second child has begun
//!                              |   \--fail_ahead----> done, with the second child's failure
//!                              +------join_both-----> done, with both values, or a failure
//!                              +------give_up-------> done, with want of memory
//!
//! Who spawns the first child's operation, and learns what it came to, is spawn_future's.
#![tactic(auto)]

mod ending;
mod env;
mod joining;
mod leaving;
mod taking;

pub use ending::{fail_ahead, give_up, is_value};
pub use env::first_env;
pub use exec_recv::{Env, Gate, Item, Parcel, Site, Stepper};
pub use joining::join_both;
pub use leaving::{begin_second, put_back};
pub use node_walks::{Ended, Mail};
pub use step_parts::Taken;
pub use taking::{AheadAt, Served, take_ahead};
