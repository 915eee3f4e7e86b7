//! Plans and traces as the texts of pictures.
//!
//!     Plan, Sigs   --plans::picture_of---> text of a digraph, for Graphviz
//!     Trace, Shown --traces::picture_of--> text of an image, in SVG
//!     text --text::put_all--> the text, and behind it these pieces
//!
//! The crate stands on `sig_check`, which has the signatures of plans, and on `trace_text`, which
//! has the traces. Want of memory is the only fault.
#![tactic(auto)]

pub mod plans;
pub mod text;
pub mod traces;
