//! The running table: operations' words, homes and hands, sound between any two atomic steps.
//!
//! It stands on listed_words, by which it makes its steps and which lists each of them with what it
//! read and left, on table_rules, whose `Traced` is its rule, and on the laws of the pure machine.
//! Many threads work on one table, each by a `Hand` of its own; no step takes memory or a lock, and
//! none waits.
//!
//! Beside its seat a hand has two sets (name_set), in room that `open` takes. One has the starts
//! that it owes: `claim` and `await_children` add to it, `begin` takes out, and `owed` reads it. An
//! only child that `begin_child` awaits and begins at once comes into no set. The other has the
//! callbacks that it runs: `run_step` adds to it, `end_run_step` and `withdraw_own_step` take out,
//! and `runs` reads it.
//!
//! # The life of a block
//!
//!     free --claim--> open --release_step--> free at the next generation, or retired after the
//!     last
//!
//! # The life of a node
//!
//!     idle --begin--> held --finish--> done --release_step--> idle again, at the next generation
//!     held --await_children--> busy k --report--> busy k-1 .. busy 0 = held
//!     held --begin_child--> busy 1, and its child idle --> held
//!     held --rest--> ready (loop or pool) --take--> held
//!     held --park--> parked --take_parked--> held
//!                    parked --rouse--> ready (loop)
//!
//! `claim`, `take`, `take_parked` and `rouse` are exchanges, and lose where the word changed first.
//! `report` is a fetch_sub, by the hand that owes it. The rest are swaps, by the one hand that
//! owes the start or holds the node: the list of its steps says what they found.
//!
//! # The life of a stop request and of a callback
//!
//!     clear --request_step--> requested --seal_scan_step--> requested and scanned
//!     never --arm_step--> armed --run_step--> running --end_run_step--> ran
//!                         armed --withdraw_step--> removed
//!                                             running --withdraw_own_step--> removed
//!
//! `request_step` is a fetch_or, and begins a scan where it is the first. `run_step` loads the word
//! of the scan's next place, passes it where it isn't armed, and else exchanges it, again at each
//! later generation at which it finds the place armed; `withdraw_step` is an exchange.
#![tactic(auto)]

mod arm;
mod begin;
mod claim;
mod close;
mod enter;
mod finish;
mod lends;
mod looks;
mod open;
mod owing;
mod plays;
mod reads;
mod release;
mod report;
mod request;
mod rest;
mod root;
mod rouse;
mod run;
mod run_end;
mod running;
mod scan_seal;
mod scope;
mod scope_look;
mod scope_set;
mod sight;
mod skip;
mod swaps;
mod table;
mod waiting;
mod withdraw;

pub use close::Closing;
pub use node_tree::Context;
pub use table::{Hand, OpTable, Ruled};
pub use table_rules::{Cargo, MOST_ASSOCIATIONS};
pub use table_steps::{Block, Remains, Report};
