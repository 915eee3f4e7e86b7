//! What the steps of all nodes share, on the running table over a plan: how a step takes up its
//! node, how it looks, listens and settles, and the ways in which it ends.
//!
//! It stands on exec_recv, at whose sites steps are made and whose deliveries they make, and on
//! op_slot and stop_calls. It keeps one promise: a node that was taken up is ended once, by one of
//! the calls here; the step then ends as a step does, and whatever the hand has beside the node is
//! as it was.
//!
//!     take_up, take_up_top, take_one --> Taken
//!     Taken --complete, complete_with_args-----------------> Go(parent), Rest
//!           --complete_stopped-----------------------------> the same, stopped
//!           --want_memory----------------------------------> the same, with want of memory
//!           --start_child, start_again, start_top, begin---> Go(child), which it awaits
//!           --await_many, await_keeping--------------------> awaiting
//!           --leave_at_rest, leave_keeping-----------------> Ready(on)
//!           --leave_parked---------------------------------> Parked
//!           --take_child, take_child_into, gather_child----> Taken
//!           --take_back, take_back_into, take_kept---------> Taken
//!           --copy_args, hear, listen, settle--------------> Taken
//!     awaiting --put_start, for each child-----------------> Rest
//!
//! A node's home is changed where it lies: its arguments stay there until it has completed.
#![tactic(auto)]

mod awaiting;
mod completing;
mod copying;
mod found;
mod gathering;
mod hearing;
mod leaving;
mod listening;
mod origin;
mod settling;
mod starting;
mod taken;
mod taking;
mod wanting;

pub use awaiting::{await_keeping, await_many, put_start};
pub use completing::{complete, complete_stopped, complete_with_args};
pub use copying::{copy_args, copy_waiting};
pub use exec_recv::{Env, Gate, Item, Kind, Label, Next, Parcel, Point, Site};
pub use found::Found;
pub use gathering::gather_child;
pub use hearing::hear;
pub use leaving::{leave_at_rest, leave_keeping, leave_parked};
pub use listening::listen;
pub use origin::Origin;
pub use settling::settle;
pub use starting::{begin, start_again, start_child, start_top};
pub use taken::{Taken, TakenUp};
pub use taking::{
    take_back, take_back_into, take_child, take_child_into, take_kept, take_one, take_up,
    take_up_top,
};
pub use wanting::want_memory;
