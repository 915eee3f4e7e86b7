//! The queue of a loop: whoever leaves a node ready for the loop posts its name, and the loop
//! drains it ([exec.run.loop]).
//!
//! A name is a hint. The word of its node decides who takes it, so nothing of a run rests on the
//! queue; what it keeps is shown all the same. Each hand has a post of its own, and whoever has a
//! post may drain through it.
//!
//!     post --post--> entry in the queue --take, drain--> drained through a post
//!          |                      |
//!          |                      +--> left, which `close` counts
//!          +--> handed back: the queue was full, or the post posted all that it can count
//!
//! The promise, of `LoopQueue::close`: where all draining went through one post, the entries that
//! were drained and then those that are left are, of each post, its posted entries in order, each
//! once. The queue is a ruled array queue of `crossbeam_queue`; the crate stands on life_rules for
//! names, and on no table.
#![tactic(auto)]

mod closing;
mod entry;
mod law;
mod opening;
mod post;
mod posting;
mod queue;

pub use entry::{Drained, Entry};
pub use law::limits_of_queues;
pub use life_rules::Name;
pub use post::LoopPost;
pub use queue::{LoopQueue, MOST_POSTS, ROOM};
