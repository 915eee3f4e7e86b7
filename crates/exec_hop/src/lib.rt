//! The steps of hops into a context, and of nodes that shelter their child from stop requests
//! ([exec.schedule], [exec.starts.on], [exec.continues.on], [exec.unstoppable]).
//!
//! It stands on step_parts, of whose calls each step is made, on node_images, which makes what a
//! `schedule` completes with, and on the laws of start_laws. It keeps two promises: a step of these
//! nodes starts from where a step may, and ends as a step does, and what it delivers is allowed by
//! the plan for the node's start; and a hop is left ready in the context that the plan says, or
//! completes stopped.
//!
//!     schedule      Start --> Ready(on) --> Done(no data)
//!     starts_on     Start --> Ready(on) --start_again--> Go(child) .. its child is done
//!                         --> Done(the same)
//!     continues_on  Start --start_child--> Go(child) .. its child is done
//!                         --> Ready(on), with the child's parcel --> Done(the same)
//!     unstoppable   Start --start_child--> Go(child) .. its child is done --> Done(the same)
//!
//! A hop is stopped where a request was made before the operation was started; and where it reads
//! one when it is taken in its context. The child of an `unstoppable` begins as if none was made.
#![tactic(auto)]

mod continues_on;
mod ending;
mod hopping;
mod schedule;
mod starts_on;
mod unstoppable;

pub use continues_on::ContinuesOns;
pub use schedule::Schedules;
pub use starts_on::StartsOns;
pub use unstoppable::Unstoppables;
