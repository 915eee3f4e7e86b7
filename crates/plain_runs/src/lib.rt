//! Plain runs: the operations of a plan's records, each evaluated when its completion is asked for.
//!
//!     start --> a block has the record's number and datum, and whether a stop was requested before
//!     collect --settle, or settle_asked where one was--> the completion, and the block is free
//!             \--no memory over a small plan--> not complete yet: the block is kept, and the next
//!                                               collect evaluates it again
//!
//! It is the plain implementation of record_loop's seam: all work is done on the calling thread,
//! and a turn does nothing. It keeps the seam's promise, that each completion is one that the plan
//! allows its record, since plain evaluation gives such a one; and that a small plan of int records
//! never answers want of memory, whatever evaluation answers. Its tally counts what was collected.
//! It stands on record_loop and plan_settle, and on sig_check, whose signatures tell whether a plan
//! is small.
#![tactic(auto)]

mod evaluate;
mod plain;
mod small;
mod started;

pub use plain::PlainRuns;
