//! Backends of the pool: what a worker keeps names of ready nodes in, and takes them from
//! ([exec.sysctxrepl.psb]).
//!
//! A backend is replaceable: whoever runs the program hands one in for each worker, boxed. A name
//! is a hint. The word of its node decides who takes it, so nothing rests on what a backend
//! answers, and one that isn't lawful may answer anything. A lawful one keeps the clauses of its
//! calls.
//!
//!     name --submit--> pending --next--> handed out, in the order that `arrange` set last
//!                 |
//!                 +--> handed back: as many names are pending as it has room for
//!
//! The promise: whatever the calls of a lawful backend, each name that was submitted and not handed
//! back is handed out once at most, nothing else is (`names_go_out_once`), and under Fifo names go
//! out in the order in which they came (`first_come_first_out`). The crate stands on life_rules for
//! names, and on no table.
#![tactic(auto)]

mod backend;
mod law;
mod order;
mod ring;

pub use backend::Backend;
pub use law::{first_come_first_out, names_go_out_once};
pub use life_rules::Name;
pub use order::Order;
pub use ring::RingBackend;
