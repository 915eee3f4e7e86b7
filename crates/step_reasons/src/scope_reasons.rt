//! Why a hand may not take a step of the scope, or wake a parked node.
#![tactic(auto, using(crate::proofs::Passing::passed, crate::proofs::Passing::stopped))]

ghost use Rattle.std.specs.Prelude.{◌≡◌, ◌<◌};
ghost use Rattle.exec_life.specs.StateLists.{machine};
ghost use Rattle.step_reasons.specs.StopReasons.{rouse_reason, enter_reason, mark_used_reason, leave_scope_reason, seal_reason};

use crate::fact::Fact;
use crate::life_reasons::stands;
use crate::reading::{Part, control_at, has_part};
use exec_life::State;
use life_rules::{ControlWord, Event, Place, ScopeWord};

/// Why the hand may not wake the node.
pub(crate) fn rouse_reason(state: &State, hand: u32, place: Place) -> Option<Fact>
    requires { hand < (machine state.now).hands }
    ensures { result ≡ rouse_reason (machine state.now) hand place }
{
    if !state.has_place(place) {
        return Some(Fact::NoPlace { place });
    }
    if !matches!(control_at(state, place), ControlWord::Parked) {
        return Some(stands(state, place));
    }
    if !has_part(state, Part::Runs, place, hand) && hand != 0 {
        return Some(Fact::RunsNot { hand, place });
    }
    None
}

/// Why the hand may not enter an association.
pub(crate) fn enter_reason(state: &State, hand: u32) -> Option<Fact>
    requires { hand < (machine state.now).hands }
    ensures { result ≡ enter_reason (machine state.now) hand }
{
    if state.allows(hand, &Event::Enter) {
        return None;
    }
    if state.allows(hand, &Event::MarkUsed) {
        return Some(Fact::InTheMaking { hand });
    }
    Some(Fact::BeingRefused { hand })
}

/// Why the hand may not make an association.
pub(crate) fn mark_used_reason(state: &State, hand: u32) -> Option<Fact>
    requires { hand < (machine state.now).hands }
    ensures { result ≡ mark_used_reason (machine state.now) hand }
{
    if !state.allows(hand, &Event::MarkUsed) {
        return Some(Fact::NoneInTheMaking { hand });
    }
    None
}

/// Why the hand may not take leave of an association.
pub(crate) fn leave_scope_reason(state: &State, hand: u32) -> Option<Fact>
    requires { hand < (machine state.now).hands }
    ensures { result ≡ leave_scope_reason (machine state.now) hand }
{
    if !state.allows(hand, &Event::Leave) {
        return Some(Fact::NoneToLeave { hand });
    }
    None
}

/// Why a hand may not seal the scope by this word.
pub(crate) fn seal_reason(state: &State, hand: u32, expected: ScopeWord) -> Option<Fact>
    requires { hand < (machine state.now).hands }
    ensures { result ≡ seal_reason (machine state.now) expected }
{
    if !state.allows(hand, &Event::Seal { expected }) {
        let word = state.words().scope();
        return Some(Fact::ScopeIs { word });
    }
    None
}
