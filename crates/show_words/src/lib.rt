//! The words of exec_show's command line: what a list of words asks for.
//!
//!     plan FILE, why FILE, write FILE, text FILE   words --only_name--> Asked
//!     trace FILE [options]     words --Reading::with_word--> Reading --trace_of--> Asked::Trace
//!
//! Options stand in any place behind the first word, each once, with a value as `--name value` or
//! `--name=value`. Numbers and names are read as exec_words reads them. `read_words` gives exactly
//! what the definition in specs/ says; every other list of words is a fault of usage, for which
//! `show_usage_lines` gives the lines that are told.
#![tactic(auto)]

mod asked;
mod reading;
mod usage;
mod words;

pub use asked::{Asked, MOST_ENTRY, Rows};
pub use usage::show_usage_lines;
pub use words::read_words;
