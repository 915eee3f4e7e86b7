//! The operations of a plan's records over a running table: record_loop's seam, on hand 0.
//!
//! It stands on record_loop, whose trait `Operations` it implements, on run_loop, which starts and
//! collects operations, on spawn_future for the first children of `ahead` nodes, on count_scope for
//! associations, and on exec_recv for the callbacks that a request runs. It keeps the seam's
//! promise: each completion that it collects is one that the plan allows its record, under what the
//! operation may have seen of the scope's request; or want of memory, where the plan may want it.
//! Its tally has each operation that it collected, and its hand claimed one block for each of
//! these, one for each that runs, and one for each first child of an `ahead` that was spawned.
//!
//! Beside workers hand 0 has a deck (deck_relay) and a post (loop_queue): what it leaves ready in
//! the pool goes to its deck, and it drains the names of what they left ready in the loop. Where
//! nothing is ready it sleeps, and they wake it. At the end it wakes them, and has the same deck
//! and post.
//!
//!     start   --associate--> association --Loop::start--> block: a ticket names both
//!             \--refused, or no block is free--> the datum comes back
//!     turn    --Loop::drain--> names that workers posted --Loop::poll--> their nodes go on
//!             --Loop::turn--> after many idle rounds each node that is ready goes on
//!             --Futures::turn--> an `ahead` that is parked is served: its first child is spawned,
//!               and later joined or abandoned
//!             --Futures::sweep--> what is abandoned and complete is ended
//!     collect --Loop::collect--> completion, block given back --disassociate--> the ticket is free
//!     request --request_scope--> the scope's request --run_scan--> its callbacks ran on this hand
//!     end     --collect what is left, and futures, close, start_join--> the hand, which has
//!     nothing
//!             --Loop::wake_all--> workers read that the scope is joined, and end
//!
//! Each operation has one association of the counting scope (P3149, [exec.scope]), which it leaves
//! after its block was given back. A ticket of the seam is a number under which a block and its
//! association are kept.
#![tactic(auto)]

mod ending;
mod entering;
mod joining;
mod later_mail;
mod operations;
mod own;
mod pausing;
mod requesting;
mod rounds;
mod running;
mod spawned;
mod tickets;
mod working;

pub use exec_recv::{Gate, Item, Stepper};
pub use op_slot::{Hand, OpTable};
pub use own::Own;
pub use record_loop::Operations;
pub use run_loop::Tally;
pub use running::{OnTable, TableRun};
