//! In-place stop sources and stop callbacks ([stopsource.inplace], [stopcallback.inplace]) on a
//! running table: stops are requested, callbacks registered, run and removed.
//!
//! It makes op_table's steps by op_slot, and stands on table_laws, from which it follows which
//! steps each call lists. It keeps one promise: a callback that was removed never runs afterwards,
//! and one that is registered when a stop is requested is run, or its registration tells of the
//! request. No call takes memory or a lock, and only `withdraw` waits.
//!
//! # A request
//!
//!     request_stop, fail_stop --Made--> scan --next--> due --finish--> scan, and next again
//!                                       scan --next: None--> seal
//!                             --Already, where a request was made before
//!
//! A scan and a due are spent: each has to go into `seal` or `finish`, else it doesn't compile.
//! From inside a due one of its own source may be made: scans nest downwards in the tree.
//!
//! # A callback
//!
//!     arm --> armed --next--> running --finish--> ran
//!             armed --withdraw: NeverRan--> removed
//!                             running --withdraw: OwnHand, from inside it--> removed
#![tactic(auto)]

mod arming;
mod dues;
mod laws;
mod removing;
mod requesting;
mod scanning;
mod searching;

pub use arming::{Armed, arm, source_above, stop_requested};
pub use dues::Due;
pub use laws::calls_list_their_steps;
pub use op_slot::{Cargo, Hand, OpTable};
pub use removing::{Settled, Withdrawn, try_withdraw, withdraw};
pub use requesting::{Failure, Request, fail_stop, request_stop};
pub use scanning::Scan;
