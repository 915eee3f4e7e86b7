//! Data, completions and outcomes, and how a line is read as a record.
//!
//! Values are cheap to move and to copy. A text has 24 bytes, a datum 32, a completion 48. A short
//! text, a row of one number and one datum stand in place; a longer text or row is shared by its
//! copies, so that a copy counts one owner more and takes no memory.
#![tactic(auto)]

mod data;
mod error_text;
mod fault;
mod kinds;
mod law;
mod limits;
mod name;
mod number;
mod nums;
mod outcome;
mod record;
mod short;
mod sum;
mod txt;

pub use data::{Data, Datum, copy_data};
pub use error_text::ErrorText;
pub use fault::RecordFault;
pub use kinds::Kind;
pub use law::limits_are;
pub use limits::{
    DATA, ERROR_NAME_BYTES, INLINE_BYTES, INLINE_DATA, LINE_BYTES, NUMBERS, TEXT_BYTES,
};
pub use name::is_error_name;
pub use number::read_int;
pub use nums::Nums;
pub use outcome::{Completion, Outcome};
pub use record::read_record;
pub use sum::sum_data;
pub use txt::{Txt, is_text};
