//! The laws of starts and completions: what a node completes with is allowed for its own start,
//! where what its children delivered was allowed for theirs.
//!
//! It stands on `home_items`, which has the starts, the parcels and what fits a home, on
//! `node_images`, whose calls make the completions, and on the plans' crates. It has no code: each
//! function's contract is laws over the definitions alone, for every plan whose kinds match. Of a
//! running table it knows what a hand is told of the homes, so a step of any node can cite it.
//!
//!     an item of the node --homes_tell--> IsHeld
//!     Done(parcel) of a child --homes_tell--> IsDoneBelow --places_tell--> IsFromBelow
//!     IsFromBelow --images_are_allowed--> MayDeliver --homes_fit--> Done(parcel) of the node
//!     a start of the node --children_may_begin--> MayBegin --> Start(env) of a child
//!
//! A step of a node that awaits one child finds all this together (`steps_may_end`).
//!
//! What a completion saw of a request is carried along: `saw` of the child is that of its parent,
//! save where the parent finds a request itself.
#![tactic(auto)]

mod alls;
mod bulks;
mod children;
mod homes;
mod leaves;
mod lets;
mod nodes;
mod steps;

pub use alls::{aheads_are_allowed, alls_are_allowed, alls_may_end, room_is_there};
pub use bulks::{parts_make_the_row, parts_may_begin};
pub use children::{children_may_begin, children_stand, few_are_begun};
pub use homes::{homes_fit, homes_tell, nodes_may_rest, places_tell, requests_are_told};
pub use leaves::{leaves_are_allowed, stops_are_allowed};
pub use lets::{bodies_are_allowed, bodies_may_begin};
pub use nodes::{images_are_allowed, jobs_take_their_data, want_passes};
pub use steps::steps_may_end;
