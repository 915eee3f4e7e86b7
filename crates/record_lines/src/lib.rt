//! Record lines: how a stream of bytes, read in pieces of any length, is cut into lines.
//!
//!     piece --take--> Some(end): a line ended, `text(&end)` shows it, and `end.rest` is taken next
//!                     None: the whole piece belongs to a line that goes on
//!     end of the stream --finish--> Some(end): the last line, which has no line feed
//!                                   None: there is none
//!
//! The lines are the same however the stream falls into pieces, a line of any length is held in
//! bounded memory, and no call after `Cutter::new` wants memory. `specs/` says which lines of a
//! stream are its records, for each way in which its reading ends, and which bytes pass the limits,
//! whose numbers `limits_of_streams` says.
//! It stands on no crate of this repository.
#![tactic(auto)]

mod cutting;
mod ending;
mod law;
mod limits;
mod line_end;
mod text;

pub use cutting::Cutter;
pub use ending::End;
pub use law::limits_of_streams;
pub use limits::{CARRIAGE_RETURN, LINE_FEED, MOST_BYTES, MOST_LINE, MOST_RECORDS};
pub use line_end::LineEnd;
