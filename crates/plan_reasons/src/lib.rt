//! What is wrong with bytes that are no plan, in a sentence.
//!
//!     node of a file --own_faults--> its faults, apart from those of the nodes below it
//!     node, one of its faults --node_wrong--> `unknown key "comment"; then takes child, do, job`
//!     settings --settings_wrong--> `"input" takes int, text or row, not "number"`
//!     node of a plan, signatures --Signed::mismatch--> `add takes int, its child gives text`
//!
//! A sentence names a word of the file, and says what was wanted there. It is exactly that of the
//! definition in specs/, want of memory aside. The first part with a fault is told, where keys come
//! before what stands at them. It stands on `plan_parts` and `plan_reader`, whose readings say
//! which parts have a fault, and on `sig_check`, which says what nodes give.
#![tactic(auto)]

mod given;
mod job;
mod kinds;
mod node;
mod own;
mod part;
mod sentence;
mod settings;
mod shown;
mod texts;

pub use job::other_job;
pub use kinds::Signed;
pub use node::node_wrong;
pub use own::{Fault, bars_bulk, faults_of, node_word_at, own_faults};
pub use settings::{excluded, settings_wrong};
