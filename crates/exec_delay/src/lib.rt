//! The step of a `delay`, which completes after a number of turns of the loop, unless a stop
//! request comes first ([stopcallback.inplace.cons]).
//!
//! It stands on step_parts, of whose calls the step is made, on stop_calls, whose callback it
//! registers and removes, and on node_images, which makes what it completes with. It keeps two
//! promises: the step starts from where a step may, and ends as a step does, and what it delivers
//! is allowed by the plan for the node's start; and a delay is left parked only once its callback
//! is registered where the node hears a source, and that source was looked at after.
//!
//!     Start --asked--> Done(stopped)
//!           --listen--> a request was read --> Done(stopped)
//!                   --> none was --> Parked
//!     Parked .. the loop takes it when it is due, or its callback made it ready in the loop
//!           --withdraw_callback--> the callback ran --> Done(stopped)
//!                              --> it never will    --> Done(no data)
//!
//! The turns are the loop's: a step counts none. A delay of no turns is parked too: it is due in
//! the turn in which the loop first sees it, so that it completes on the loop, as each delay does,
//! and never within the step that started it.
#![tactic(auto)]

mod beginning;
mod ending;
mod stepping;
mod withdrawing;

pub use stepping::Delays;
