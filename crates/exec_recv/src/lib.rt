//! Receivers on the running table: how a node delivers its completion to its parent ([exec.recv]),
//! and what a step of a node needs and leaves.
//!
//! It stands on home_items, whose items lie in the homes of a table over a plan, and on op_slot and
//! stop_calls, whose calls it makes. It keeps one promise: a node completes once, with a parcel
//! that the plan allows for its start, after its children; and its parent goes on where that was
//! the last of its children.
//!
//!     step of a node --deliver--> finished --fail_stop--> reported --Go--> step of its parent
//!                    |                      (a `when_all` whose child failed)
//!                    +--> Rest: it awaits children
//!                    +--> InLoop, InPool, Parked: it goes on later
#![tactic(auto)]

mod delivering;
mod gate;
mod kind;
mod next;
mod scans;
mod site;
mod stepper;

pub use delivering::deliver;
pub use gate::{Gate, OpenGate, Point};
pub use home_items::{Env, Item, Label, Parcel};
pub use kind::Kind;
pub use next::Next;
pub use scans::run_scan;
pub use site::Site;
pub use stepper::Stepper;
