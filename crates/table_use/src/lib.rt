//! Proofs of use: one hand takes operations through their life, by the public contracts of the
//! table, of its stop calls and of its scope alone.
//!
//! It stands on op_slot, stop_calls and count_scope. Each item shows the entries of its
//! node and of all above it, as an engine's does, and all operations have this tree:
//!
//!     root 3, with a source
//!       branch 2, with a source; its callback is registered on the root's
//!         twig 1; its callback is registered on the branch's
//!       leaf 0
//!
//! `completes` is a whole life. The root waits for its leaf, which ends with what its start says,
//! rests with that value in its home, and is taken, finished and released. The hand notes the
//! root's start when it begins it. So what is answered is what the start says, for the number that
//! was given: the table lost no item and mixed none up.
//!
//! `fails` tells a failure and passes the request on. The hand starts all four, and finishes the
//! leaf as failed. It tells that to the root's source (`fail_stop`), and its scan comes to the
//! branch's callback. From inside this it passes the request on (`request_stop` on the branch's
//! source): that scan comes to the twig's. It ends both runs and both scans, the inner ones first,
//! and reports the leaf. An answer names the places that ran: the branch's and the twig's, at the
//! generation of the block that was claimed. However it ends, the hand makes no scan and runs no
//! callback afterwards.
//!
//! The other calls are single steps of a use, for hands that share a table. A root hears the
//! scope's source: `listens` registers its callback, `asks` requests a stop of the scope, by hand
//! 0, and `runs_out` runs what the scan comes to; the callback is removed from inside its run,
//! beside it, or after it (`removes_inside`, `tries`, `removes`), and then the root can end
//! (`lets_go`). A hand associates with the scope and leaves, closes and joins it, and can associate
//! again (`enter`, `leave`, `pass`, `shut`, `join_now`, `look`, `has_joined`). Each of them tells
//! what was read and left, as specs/Asking.antt and the contracts of count_scope say it.
//!
//!     begins -> listens -> asks -> runs_out -> removes -> lets_go
//!                              \-> removes_inside
//!
//! That each call may be made follows from what the calls before it promised. That they answer as
//! they do on one hand (the block is free, a request is the first, a callback wasn't moved) is no
//! matter of the contracts: where they don't the hand answers a `Fault`, with each scan sealed.
//! Each fault carries its cause, as specs/Causes.antt and specs/Ends.antt say it: `NoBlock` comes
//! only where each block was missed at its own step, and every other only in an operation whose
//! block was read as free in this call, where the hand's steps tell why. Tests show that none
//! comes.
#![tactic(auto)]

mod cargo;
mod failing;
mod growing;
mod hearing;
mod life;
mod members;
mod node;
mod passing;
mod scans;
mod starting;

pub use cargo::{Entry, Env, Item};
pub use failing::{Heard, fails};
pub use hearing::{asks, asks_all, lets_go, listens, removes, removes_inside, tries};
pub use life::{Answer, completes};
pub use members::{enter, has_joined, join_now, leave, look, pass, shut};
pub use node::{Fault, Table, Worker};
pub use scans::{runs_one, runs_out};
pub use starting::begins;
