//! What is answered of a text in the notation: the plan as JSON, or where and why the text is
//! refused.
//!
//!     text --read_text--> JSON --read_plan--> plan --write_plan--> its canonical text
//!     a refusal of the text --told--> a sentence with its line and column
//!     a refusal of the plan --refusal_of--> the path of a node --spot_of--> its place in the text
//!     plan --notation_of--> text --read_text--> JSON: the text is answered if that is the plan's
//!
//! It stands on `plan_notation`, which reads the text, on `plan_reader`, which judges the plan, and
//! on `plan_places`, which finds the node that is refused. The first refusal is told: the text's
//! before the plan's.
#![tactic(auto)]

mod answer;
mod found;
mod path;
mod sentence;
mod text;

pub use answer::{NotationFault, Written, read_notation, written_of};
pub use text::text_of;
