//! How the small parts of a plan file are read: numbers, texts, names, constants and jobs.
//!
//! It stands on `serde_json`, whose reading says what JSON is. A part is read to its end, and all
//! that is wrong with it is told: three faults stand beside each other, and none hides another. The
//! definitions in specs/ are the tables of the plan language; each reader answers exactly these.
#![tactic(auto)]

mod constant;
mod job;
mod job_word;
mod law;
mod name_table;
mod object;
mod reading;
mod scalar;

pub use constant::{constant_of, constants_at};
pub use job::job_at;
pub use job_word::{Arithmetic, JobWord, PlainJob, job_keys, job_named};
pub use law::limits;
pub use name_table::named;
pub use object::{has_unknown_key, number_at, text_at, with_keys};
pub use reading::{FORM_FAULT, Faults, LIMIT_FAULT, NAME_FAULT, NO_FAULT, Reading};
pub use scalar::{MOST_PLACE, count_at, count_of, name_at};
