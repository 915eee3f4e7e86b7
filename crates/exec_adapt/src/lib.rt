//! The steps of factories, of adaptors with one child, and of the receiver node ([exec.factories],
//! [exec.adapt]).
//!
//! It stands on step_parts, of whose calls each step is made, on node_images, which makes what a
//! node completes with, and on the laws of start_laws. It keeps one promise: a step of these nodes
//! starts from where a step may, and ends as a step does, and what it delivers is allowed by the
//! plan for the node's start.
//!
//!     factory   Start --> Done(what it makes)
//!     adaptor   Start --start_child--> Go(child) .. its child is done --> Done(the image)
//!     receiver  Start --start_top--> Go(child) .. its child is done --> Ready, with its parcel
//!               its child is the one that its start names: the root, or the first of an `ahead`
//!
//! A long name of an error is shared, and its step waits where it can't be copied, which doesn't
//! come. What else wants memory is delivered so; small plans have nothing of the kind.
#![tactic(auto)]

mod adaptors;
mod factories;
mod images;
mod naming;
mod opening;
mod receivers;

pub use adaptors::Adaptors;
pub use factories::Factories;
pub use receivers::Receivers;
