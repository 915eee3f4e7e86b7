//! The lines that a run over a part of its records wrote, read from a file.
//!
//!     name --Folder::open--> File --PartReader::next--> Some(said): the next line is that of its
//!     record
//!                                                       None: the part is at its end
//!     said --PartReader::line--> the bytes of the line behind its number
//!          --PartReader::pass--> the reader is at the next line
//!
//! A reader answers a line only where it is the one that a run writes under its number, and names
//! the first that isn't. It holds a line and what was read beside it, and never a part. It stands
//! on exec_io and exec_value, and on outcome_lines, whose lines it reads.
#![tactic(auto)]

mod counting;
mod folder;
mod front;
mod law;
mod limits;
mod line;
mod mem_folder;
mod putting;
mod reader;
mod sort;
mod tally;
mod window;

pub use counting::count_lines;
pub use folder::{Folder, OpenFault};
pub use front::read_front;
pub use law::{outcomes_are_parts, parts_have_one_reading};
pub use limits::{MOST_LINES, MOST_WORDS};
pub use line::Said;
pub use mem_folder::{MemFile, MemFolder};
pub use putting::{PutFault, put_line, put_lines};
pub use reader::{PartFault, PartReader};
pub use sort::Sort;
pub use tally::Tally;
