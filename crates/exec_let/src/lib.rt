//! The steps of `let_value`, `let_error` and `let_stopped` ([exec.let]).
//!
//! It stands on step_parts, of whose calls each step is made, on node_images, which picks the body,
//! and on the laws of start_laws. It keeps two promises: a step of a let starts from where a step
//! may, and ends as a step does, so what it delivers is allowed by the plan for the let's start;
//! and the body that the pick names for what the child completed with, and no other, begins, with
//! these data as its arguments, and completes the let as it completes.
//!
//!     Start --start_child--> Go(child) .. its child is done
//!           --off the let's channel--> Done(the same)
//!           --on it, and the pick names no body--> Done(what the pick answers)
//!           --on it--> begin of the body --> Go(body) .. the body is done --> Done(the same)
//!
//! Before a body begins, and where one is done, the let looks at the source that it hears: a body's
//! start may rest on a request that the child saw, and then what the body completes with does.
//! Where the data of a small plan want memory, as long names of errors may, the step tries again;
//! they are shared, so that this doesn't come.
#![tactic(auto)]

mod beginning;
mod channel;
mod ending;
mod opening;
mod parts;
mod picking;
mod stepping;

pub use stepping::Lets;
