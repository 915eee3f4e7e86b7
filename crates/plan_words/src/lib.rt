//! The tokens of a plan's notation, and their places.
//!
//!     text --tokens_of--> tokens: words, constants, and the marks | ( ) ,
//!     text, the offset of a token --place_behind--> its line and column
//!
//! A word or a number is a run of bytes up to a blank, a mark, a quote, a bracket or a `#`. A text
//! is all from a quote to the next that no backslash escapes, and a row all from `[` to the next
//! `]`. From `#` to the end of a line stands a comment. A backslash behind a text joins it with the
//! next text, and blanks behind the bracket and the commas of a row don't count, so that both may
//! go over several lines. Any bytes are cut, and none are refused: what a token means is said
//! elsewhere. It stands on nothing.
#![tactic(auto)]

mod cutter;
mod kind;
mod layout;
mod long;
mod page;
mod place;
mod token;
mod widths;

pub use cutter::tokens_of;
pub use kind::{TokenKind, token_kind};
pub use layout::laid_out;
pub use page::MOST_COLUMNS;
pub use place::{Place, place_behind};
pub use token::Token;
