//! A trace as the text of a picture, in SVG.
//!
//!     Trace, Shown --picture_of--> text of an image
//!
//! A lane is a hand, and time runs downwards: each entry has a row of its own, in the lane of its
//! hand, with its number and its text. What it does gives its colour: the life of operations, a
//! callback, a stop source, or the scope. Bars to the left of the lanes are the lives of blocks,
//! from claim to release; a bar in a lane is a callback that the hand runs. `Shown` cuts the
//! picture to some entries, and marks the one that is refused.
//!
//! The text is exactly that of specs/Traces/: `picture_of`. Want of memory is the only fault.

mod armed;
mod bar;
mod frame;
mod heading;
mod layout;
mod picture;
mod row;
mod shown;

pub use picture::picture_of;
pub use shown::Shown;
