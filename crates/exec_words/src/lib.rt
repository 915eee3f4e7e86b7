//! The words of the command line: which command a list of words asks for.
//!
//!     run PLAN [options]       words --Reading::with_word--> Reading --run_of--> Command::Run
//!     gen PLAN N [options]     words --Reading::with_word--> Reading --gen_of--> Command::Gen
//!     replay FILE              words --only_name--> Command::Replay
//!     check FILE               words --only_name--> Command::Check
//!
//! Options stand in any place behind the first word, each once, as `--name value` or
//! `--name=value`. It stands on no crate. `read_words` gives exactly the command of the definition
//! in specs/; every other list of words is a fault of usage, for which `usage_lines` gives the
//! lines that are told. `options_stand_in_any_place` is a law of that definition.
#![tactic(auto)]

mod command;
mod law;
mod number;
mod reading;
mod usage;
mod words;

pub use command::{Command, Options, Order};
pub use law::{limits_of_words, options_stand_in_any_place};
pub use number::{MOST_GENERATED, MOST_WINDOW, MOST_WORKERS, number_between};
pub use reading::is_name;
pub use usage::usage_lines;
pub use words::{only_name, read_words};
