//! The records of a plan, run over the running table.
//!
//!     plan --open_run--> table, hands, desks: a deck and a post for each hand
//!      |
//!      +--run_on_table--> run_beside: workers on the other hands, and on hand 0 LinesFront::work:
//!      |                  TableRun::open --run_records--> lines --end--> the scope is joined
//!      +--close_desks---> Relay::close, LoopQueue::close --> DeskEnd
//!      +--close_table---> Closing: no hand has anything, each block is back
//!      |
//!     Account: the ending, the tally, Closing, DeskEnd, Given
//!
//! It stands on record_loop, which runs records over a layer of operations, and on that layer:
//! record_operations over the steps of node_stepper, with the workers of run_workers beside it. It
//! keeps the promise of record_loop, and says on which table: each line is told by the operation
//! that was collected for its record from the table that the account tells of. That table was
//! closed, whatever became of the source and the sink, with each block given back and the scope of
//! the operations joined (P3149, [exec.scope]), and its hands claimed no block but for these
//! operations and for those that `ahead` nodes spawned. No literal stands for a table that was
//! closed, nor for operations that were collected: `close_table` alone makes the one, and a loop
//! that collects alone adds to the other.
//!
//! Hands tell each other of nodes that are ready by their desks: the names of a relay (deck_relay)
//! and of a queue (loop_queue), on which nothing that is promised of lines rests. With 1 to 16
//! workers there is a desk for each hand, and all are closed, by calls that have their laws: of the
//! decks, that each name was taken and is left, together, exactly as often as it was offered or
//! pushed; and of the posts, of which hand 0's alone drains, that what was drained and what is left
//! is of each post what it posted, in order. The names that are left are of a table on which all
//! operations are over. Each worker takes names of a backend, which was arranged in the order of
//! the crew before the worker began: the account shows it by what only an arrangement makes.
#![tactic(auto)]

mod account;
mod beside;
mod desks;
mod front;
mod joining;
mod lines;
mod opened;
mod setup;
mod working;

pub use account::Account;
pub use desks::{DeskEnd, MOST_DESKS};
pub use lines::run_lines;
pub use record_operations::Tally;
pub use setup::Setup;
