//! The step of a `when_all` ([exec.when.all]).
//!
//! It stands on step_parts, of whose calls the step is made, on node_images, which
//! joins values, and on the laws of start_laws. It
//! keeps one promise: a step of a `when_all` starts from where a step may, and ends as a step does,
//! and what it delivers is allowed by the plan for the node's start.
//!
//!     Start --listen: no stop stands--> start_all --> Rest, awaiting all children
//!           --listen: a stop stands---> Done(stopped), and no child was begun
//!     Rest  .. the last child is reported --> Done(what the children complete with together)
//!
//! The callback is registered before the stop is looked for, so that a request comes to it, or is
//! seen; and it is settled before the node is done. A plan's `when_all` has two children or more.
#![tactic(auto)]

mod beginning;
mod ending;
mod joining;
mod opening;
mod starts;
mod stepping;

pub use stepping::Alls;
