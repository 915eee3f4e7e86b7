//! The engine: from words to what they ask for, and a status.
//!
//!     words --read_words--> Command --run_task--> Status, or a command on a file (trace_commands)
//!     Task --open_plan--> Plan --run_lines--> Account --Tally::take--> Status --conclude--> notes
//!     a name without a plan --give_up--> notes; the status that stands then
//!
//! `run` is the top call of the program. It does all that the program does, over the shelf, the
//! source and the sinks of the `System` that is handed in, and sets a `Tally`. Its clauses say what
//! a command is and how it ends (`CommandEnds`, `RunEnds`):
//!
//! - the shelf is asked for the one file that the words name;
//! - which lines are lawful for the records that were taken (`Lines`, over line_rules), and that
//!   each completion that a line shows was collected for its record, as an operation of the plan,
//!   from the one table whose closing the tally tells (`IsTallyOf`);
//! - when a read began, all records whose line feed was read were answered (`ReadsCaughtUp`);
//! - what each status says of lines and tally (`Says`) and of notes (`Noted`), and why it is
//!   answered.
//!
//! They hold for any number of workers and any backends. A run's records, read or generated, are
//! worked on by whole_run, over the running table with a crew of workers (run_workers). It stands
//! on these, plan_reader, exec_words, exec_status and trace_commands.
#![tactic(auto)]

mod crewing;
mod ending;
mod engine;
mod opening;
mod refusal;
mod running;
mod system;
mod tally;
mod task;

pub use engine::run;
pub use exec_recv::Gate;
pub use exec_status::Status;
pub use pool_backends::Backend;
pub use system::System;
pub use tally::Tally;
