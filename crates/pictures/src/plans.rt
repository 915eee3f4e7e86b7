//! A plan as the text of a picture, in the language of Graphviz.
//!
//!     Plan, Sigs --picture_of--> text of a digraph
//!
//! A box is a node, with its number, the standard's name and its own data; arrows go to its
//! children, in order, and dashed ones to its bodies. Its colour is the context in which the node
//! is started, that of its border the context in which it completes. A box also says which stop
//! source its callback is registered on, and what it can complete with. Of equal neighbours the
//! first is drawn, with their count. The parts of a bulk are not drawn.
//!
//!     root --draw_from--> box, arrows, and below them each child and each body --draw_from--> ..
//!
//! The text is exactly that of specs/Plans/: `picture_of`, line by line. Want of memory is the only
//! fault.

mod drawing;
mod ends;
mod folds;
mod home;
mod job;
mod lines;
mod name;
mod own;
mod picture;
mod quoted;
mod shape;

pub use picture::picture_of;
