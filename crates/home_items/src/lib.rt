//! What lies in the homes of a running table over a plan: starts, rests and completions.
//!
//! It stands on the crates of plans, which say what nodes may complete with, and on `table_rules`,
//! whose cargo `Item` is. An environment shows a start, a parcel a completion that the plan allows
//! for the start of the node that delivers it. So what is collected at the root of an operation is
//! allowed for its record, whatever the nodes did on the way (`collected_is_allowed`).
//!
//!     Env::of_record (the receiver node) --below--> Env (a child) --below--> Env (its child) ..
//!     Env --Item::starting--> Item (of the same node) --take_done--> Parcel
//!
//! In the home of a node lies, one after the other:
//!
//!     its start --> a rest --> a rest with its child's parcel --> its own parcel
#![tactic(auto)]

mod entry;
mod env;
mod item;
mod kept_parcel;
mod law;
mod parcel;
mod placing;
mod shown;

pub use entry::Entry;
pub use env::Env;
pub use item::{Gathers, Item, State};
pub use law::{collected_is_allowed, kinds_go_down, shares_make_the_row};
pub use parcel::{Label, Parcel};
pub use shown::{Shown, Shows};
