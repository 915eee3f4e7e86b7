//! Traces and schedules as texts: what they say, and how they are read and written.
//!
//!     text --read_trace--> Trace --write_trace--> text
//!     text --read_schedule--> Schedule
//!     Event --put_event--> its text, behind what was written before
//!
//! It stands on life_rules and node_tree, whose events and trees a text names. What is read is
//! exactly what the text says, and a text that is none of a trace or a schedule is refused at its
//! first line that goes wrong.
#![tactic(auto)]

mod cut;
mod entry;
mod fault;
mod header;
mod kinds;
mod law;
mod limits;
mod on_line;
mod opening;
mod parse_line;
mod parts;
mod put;
mod put_events;
mod put_line;
mod read_event;
mod read_line;
mod read_opening;
mod reading;
mod schedule;
mod trace;
mod word_table;
mod words;
mod writing;

pub use entry::{Choice, Entry};
pub use fault::TraceFault;
pub use kinds::{BareKind, BlockKind, PlaceKind};
pub use law::{each_has_one_text, limits_are_told, texts_are_read_back};
pub use limits::{ASSOCIATIONS, BLOCKS, ENTRIES, FILE_BYTES, HANDS, NODES};
pub use opening::Opening;
pub use parts::{Parts, parts_of};
pub use put::{put_number, put_place, put_scope, put_source};
pub use put_events::put_event;
pub use put_line::put_entry_text;
pub use reading::{read_schedule, read_trace};
pub use schedule::Schedule;
pub use trace::Trace;
pub use writing::write_trace;
