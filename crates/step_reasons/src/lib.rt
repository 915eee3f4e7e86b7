//! Why a hand may not take a step: what is so in the state that keeps it from it.
//!
//!     State, hand, Event --reason_of--> Fact, or none where the step may be taken
//!     State, Fact --is_so--> whether it is so in that state too
//!
//! It stands on exec_life, of which it reads what everybody may read. It keeps one promise: a step
//! that may not be taken has a reason, and no other has one; what the reason says is so in the
//! state, and in each sound state in which it is so the step may not be taken.
#![tactic(auto)]

mod callback;
mod fact;
mod law;
mod life_reasons;
mod reading;
mod reason;
mod scan_reasons;
mod scope_reasons;
mod so;
mod standing;
mod stop_reasons;

pub use callback::Callback;
pub use fact::Fact;
pub use law::{facts_forbid, reasons_are_so, refused_steps_have_reasons};
pub use reason::reason_of;
pub use so::is_so;
pub use standing::Standing;
