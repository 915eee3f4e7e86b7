//! Plan files: whatever bytes come, they are a plan, or the first of seven refusals holds.
//!
//! ```text
//! bytes --read_json--> JSON --settings_of--> settings -.
//!                        |                             +--joined--> nodes and settings --judged-->
//!                        plan `--walked_of--> nodes, faults-'
//! ```
//!
//! `read_plan` is exactly the definition of a plan file in specs/, for every byte string: the whole
//! file is walked whatever was found wrong before, and of the refusals that hold the first is
//! answered. `Limit` comes for a limit or a misplaced `ahead` and for nothing else, and no bound on
//! the nesting stands beside that of JSON (`levels_suffice`). Want of memory is told as such.
//!
//! It stands on `plan_parts`, which reads the small parts of a file, on `plan_builder`, which
//! numbers the nodes, and on `sig_check`, which checks their kinds.
#![tactic(auto)]

mod descent;
mod fault;
mod found;
mod law;
mod node_parts;
mod node_word;
mod plan;
mod read;
mod settings;
mod walk;

pub use fault::PlanFault;
pub use found::Found;
pub use law::{levels_suffice, limits};
pub use node_parts::{adaptor_node, leaf_node, let_node};
pub use node_word::{Adaptor, Leaf, Let, NodeWord, node_keys, node_named};
pub use plan::{MOST_LEVELS, known_settings};
pub use read::{MOST_PLAN_BYTES, found_in, read_plan};
pub use settings::is_first_version;
