//! Why bytes are no plan, and where.
//!
//!     bytes, the fault that `read_plan` answers --refusal_of--> a cause, a place and a reason
//!     JSON --Search::first--> the first node that is sought: its path, `root.children[1].child`,
//!                             and a reason, `unknown node "inptu"; nodes: ..`
//!     Plan, the number of a node --way--> its path
//!     Plan, its signatures --Signed::mismatch--> a reason, `add takes int, its child gives text`
//!
//! A node has its own faults, apart from those of the nodes below it; the place of a cause is the
//! first node that has it, where a node comes before those below it. Where none has it, the place
//! is the keys beside `root`, or the whole file. `refusal_of` tells exactly the place and the
//! reason of the definitions in specs/, want of memory aside; of the line and column of a text that
//! isn't JSON no definition speaks. It stands on `plan_reader` and `sig_check`, which refuse, and
//! on `plan_reasons`, which has the sentences.
#![tactic(auto)]

mod json;
mod kinds;
mod path;
mod place;
mod refusal;
mod seeking;
mod sought;
mod way;

pub use refusal::{Cause, Refusal, refusal_of};
