//! The step of an `ahead`, whose first child runs as an operation of its own in the scope (P3149,
//! `spawn_future`): it waits parked until hand 0 serves it.
//!
//! It stands on step_parts, of whose calls the step is made, and on the laws of start_laws. It
//! keeps two promises: the step starts from where a step may, and ends as a step does; and it
//! leaves the node parked, with what its second child completed with, once that has completed.
//!
//!     ahead  Start --> Parked      hand 0 spawns the first child, and starts the second
//!            .. the second is done --> Parked, with its parcel      hand 0 polls the first
//!
//! What hand 0 does with a node that it takes there is no step of the node's.
#![tactic(auto)]

mod stepping;

pub use stepping::Aheads;
