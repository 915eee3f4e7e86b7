//! A loop of operations on one hand of a running table over a plan: hand 0, which starts
//! operations, takes what is ready in the loop, and collects what they completed with.
//!
//! It stands on node_walks, which starts and ends an operation, on node_walks, by which it serves a
//! node, and on timer_wheel, which lists the delays that it saw parked. It keeps one promise: what
//! is collected is want of memory, or is allowed for the start with which its operation began, and
//! it saw a stop request only where the scope's request stands.
//!
//!     env --start--> an operation --poll, turn--> ready at its root --collect--> Collected
//!      |                                                                            ^
//!      +--sync_wait-----------------------------------------------------------------+
//!
//! Each poll is a turn of the plan's delays, which rest parked until they are due or roused. It
//! looks at each of them in each block: one that is parked waits in the list from then on, and a
//! later turn takes it, the one that comes as many turns later as the delay says, or one after
//! that.
//!
//!     parked --poll: first seen--> waits --poll, so many times--> due --take_parked--> its step
//!
//! Other hands tell a loop of nodes that they left ready there through a queue (loop_queue):
//! `drain` adds these names to those that the next poll serves. A name is a hint, and one that is
//! lost is found by a turn's look at each node. A loop whose hand has a deck (deck_relay) pushes
//! the names of nodes there that it leaves ready in the pool, and may sleep by the deck's sleeper.
//!
//! The loop has no list of its operations. Its hand notes the start of each root that it begins,
//! and forgets it when it gives the block back: the operations that a loop started and hasn't
//! collected are those notes. Those that it collected stand in its tally, each with its plan, its
//! table, its number and its completion. Nobody else adds to a tally.
#![tactic(auto)]

mod collecting;
mod delay_node;
mod delaying;
mod draining;
mod listing;
mod loop_mail;
mod looped;
mod resting;
mod scanning;
mod serving;
mod starting;
mod tally;
mod turning;
mod waiting;

pub use deck_relay::{Deck, Sleeper};
pub use exec_recv::{Env, Gate, Item, Site, Stepper};
pub use loop_queue::{Drained, LoopPost};
pub use looped::Loop;
pub use node_walks::{Block, Collected};
pub use tally::Tally;
pub use waiting::Waited;
