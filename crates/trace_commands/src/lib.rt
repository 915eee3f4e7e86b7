//! The commands on traces and schedules: `check FILE` and `replay FILE`.
//!
//!     name --Shelf::read--> bytes --read_trace, check_trace--> Verdict --> out, a status
//!     name --Shelf::read--> bytes --read_schedule, replay, write_trace--> text --> out, a status
//!     a refusal, and what else stands of the status --> notes
//!
//! Each reads its file from a shelf, writes its answer to out, tells what goes wrong on notes, and
//! gives the status with which the program ends. It stands on exec_io, exec_status and replay_core.
//! So what is written is what the pure machine says of the file, and each status comes exactly
//! where it is due (`Says`, `Noted`, `IsDue`).
#![tactic(auto)]

mod checking;
mod file;
mod replaying;

pub use checking::check_file;
pub use file::{Refusal, file_fault, give_up, read_file};
pub use replaying::replay_file;
