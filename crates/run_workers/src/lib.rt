//! The workers of one run: each on a hand of its own, in a thread of its own, beside the work on
//! hand 0.
//!
//! It stands on steal_pool, whose workers serve until the scope of their table is joined. It keeps
//! one promise: the work on hand 0 was done, and all hands come back, of which each but hand 0's
//! has nothing, claimed no block, and read that the scope is joined, whether its thread could be
//! started or not. All desks come back, each the same, and a worker drains nothing through its
//! post. Each worker has a backend of one arrangement, and so in its order.
//!
//!     hands --run_beside--> hand 0: Front::work ---------------- joins the scope --> back
//!              |            hand 1: a thread: Worker::serve -- reads joined ------> back
//!              |            hand 2: a thread: Worker::serve -- reads joined ------> back
//!              +-- no thread for hand 3: it serves after hand 0 --- reads joined --> back
//!
//! Threads share the table, the stepper, and names by their desks. Where none could be started the
//! work on hand 0 is told that it has to help the pool ([exec.sysctxrepl.general]: the calling
//! thread runs what no other does).
#![tactic(auto)]

mod beside;
mod crew;
mod front;
mod ground;
mod serving;
mod staff;

pub use beside::run_beside;
pub use crew::Crew;
pub use exec_recv::{Item, Stepper};
pub use front::Front;
pub use ground::Ground;
pub use op_slot::{Hand, OpTable};
pub use pool_backends::{Backend, Order};
pub use staff::Staff;
pub use steal_pool::{Arrangement, Desk, Given};
