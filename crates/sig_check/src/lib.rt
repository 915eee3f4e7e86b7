//! The check of a plan's kinds.
//!
//! It stands on `plan_kinds`, which says what signatures are and that they are kept, and on
//! `plan_shape`, which has the plans. `check` answers the signature of every node, or the first
//! node whose kinds don't match; `signatures` answers them whether or not they match. `run_by` and
//! `bodies_of` answer which nodes a node runs.
#![tactic(auto)]

mod checking;
mod fault;
mod finding;
mod flags;
mod gives;
mod joint;
mod matching;
mod runs;
mod shapes;
mod sigs;
mod values;
mod walk;

pub use checking::{check, signatures};
pub use fault::SigFault;
pub use gives::{gives_for, takes_value};
pub use plan_kinds::{KindList, Sig};
pub use runs::{bodies_of, run_by};
pub use shapes::agrees;
pub use sigs::Sigs;
