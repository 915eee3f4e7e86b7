//! That what a plan is written in, in the notation of senders, is read back as the plan.
//!
//! It stands on plan_notation, which says which tokens a plan is written in and which JSON a text
//! is, and on plan_writer, which says which JSON a plan is. It has no code.
#![tactic(auto)]

ghost use Rattle.notation_laws.specs.RoundTrip.{NotationIsReadBack};

/// Any text of a plan's tokens, however it is laid out, is read as the plan's canonical JSON, for
/// every plan. The call does nothing. Its contract is the law.
pub fn notation_is_read_back()
    ensures { NotationIsReadBack }
{}
