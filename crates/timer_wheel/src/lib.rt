//! A timer wheel, which has pairs of a place and the turn at which it is due, and on it the parked
//! delays that a loop has seen.
//!
//! # The life of a pair
//!
//!     add --> third level --> second level --> first level --> ready --due--> gone
//!
//! Each arrow between levels is an `advance`. A pair may begin at any of the four, and `remove`
//! ends it at any. It stands in a bucket, which is a list of places. The first level has 128
//! buckets, each of one turn of the present lap of 128 turns. The second has one for each lap of
//! the present long lap of 128 laps, the third one for each long lap, and pairs whose turn has come
//! are ready. The turn that begins empties one bucket into lower ones, so that a pair moves three
//! times at most.
//!
//! The promise: whatever the list of calls, they are those of a plain list of pairs, as [`run`]
//! says. No call after [`Wheel::open`] wants memory.
//!
//! # The life of a delay in the list
//!
//!     saw_parked (first seen) --> waiting --next_turn, so many times--> due --due--> gone
//!
//! `forget` ends it at any time, and so does `saw_parked` at another generation of its place: that
//! is another delay, which is first seen now. A place is a number, by which the list's caller tells
//! apart the delays that can be parked at one time.
//!
//! The promise: a delay of so many turns that is first seen in a turn is due in the turn that comes
//! so many turns later, and in none before. `due` answers `None` only where no delay in the list is
//! due: so no turn that asks it until then ends with a delay that is due. No call after
//! [`Delays::open`] wants memory.
//!
//! The crate stands on no crate of this repository: no table is in it.
#![tactic(auto)]

mod buckets;
mod commands;
mod delays;
mod law;
mod limits;
mod links;
mod lists;
mod settling;
mod waiting;
mod wheel;

pub use commands::{Command, Reply, run};
pub use delays::Delays;
pub use law::limits_of_wheels;
pub use limits::{LAST_TURN, MOST_PLACES, MOST_TURNS};
pub use waiting::{DueDelay, Waiting};
pub use wheel::Wheel;
