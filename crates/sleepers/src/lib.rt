//! Hands that sleep while there is nothing to do, and how they are woken.
//!
//! Each hand has a sleeper, with a parker of its own. Two words are shared, each on cache lines of
//! its own: which hands are asleep, a bit for each, and how many search for names. A hand begins to
//! search where at most one does. Who makes a name ready wakes a hand only where nobody searches,
//! and takes the bit of the one that it wakes, which is counted as searching from then on.
//!
//!     awake --try_search--> searching --leave_search--> awake
//!     awake --lie_down--> asleep --park--> woken --get_up--> awake, or searching
//!     asleep --wake_one, wake, wake_last, wake_all--> woken
//!
//! The last hand doesn't search for others: it looks as long as it likes, and isn't counted.
//!
//! A hand lies down first, looks once more, and parks only then; so what becomes ready in between
//! finds its bit. `Vigil` keeps this order, and how long a hand looks before it lies down. A token
//! that comes late costs one round. That a hand that parks is woken isn't claimed: the proof sees
//! no sleeping. Nothing rests on this crate but the time that a run takes.
#![tactic(auto)]

mod opening;
mod patience;
mod sleeper;
mod vigil;

pub use opening::open;
pub use sleeper::{MOST_HANDS, Sleeper};
pub use vigil::{Stage, Vigil};
