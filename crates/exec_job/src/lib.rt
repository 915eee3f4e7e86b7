//! Jobs: the operations that a plan applies to data.
//!
//! `apply` gives a job's value or error for the data that it takes, and `apply_at` that of an
//! element job for one number of a row. `Element` is an element job as a type of its own, for loops
//! over a row. It stands on the data of exec_value.
#![tactic(auto)]

mod answer;
mod element;
mod fault;
mod job;
mod kinds;
mod numbers;
mod operands;
mod texts;

pub use answer::{apply, fault_ending};
pub use element::{
    Added, Bounded, Divided, Element, Indexed, Multiplied, Negated, Subtracted, apply_at,
};
pub use fault::JobFault;
pub use job::Job;
