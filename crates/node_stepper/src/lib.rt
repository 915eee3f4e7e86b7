//! What steps the nodes of a plan over hands.
//!
//! It stands on the crates that step nodes by their kinds (exec_adapt, exec_hop, exec_let,
//! exec_all, exec_bulk, exec_delay, exec_ahead), and chooses among them. It keeps one promise: each
//! of its steps does what the node's kind says.
//!
//!     plan --of--> NodeSteps --step--> Kind::step of Receivers, Factories, Adaptors
//!                                                    Schedules, StartsOns, ContinuesOns
//!                                                    Unstoppables, Lets, Alls
//!                                                    Bulks, Parts, Delays, Aheads
#![tactic(auto)]

mod stepping;

pub use stepping::NodeSteps;
