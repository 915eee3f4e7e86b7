//! Why a hand may not take a step of stop sources and their callbacks.
#![tactic(auto, using(crate::proofs::Passing::passed, crate::proofs::Passing::stopped))]

ghost use Rattle.std.specs.Prelude.{◌≡◌, ◌<◌, None, true};
ghost use Rattle.exec_life.specs.StateLists.{machine};
ghost use Rattle.life_rules.specs.States.{is_place};
ghost use Rattle.step_reasons.specs.StopReasons.{arm_reason, look_reason, request_reason, end_run_reason, withdraw_reason, withdraw_own_reason};

use crate::fact::Fact;
use crate::life_reasons::{calls_back, stands};
use crate::reading::{Part, has_part, is_nearest, is_source, nearest_source, phase_at};
use exec_life::State;
use life_rules::{CallbackPhase, Event, Place, SourceAt};

/// Why the hand may not register the node's callback.
pub(crate) fn arm_reason(state: &State, hand: u32, place: Place) -> Option<Fact>
    requires { hand < (machine state.now).hands }
    ensures { result ≡ arm_reason (machine state.now) hand place }
{
    if !state.has_place(place) {
        return Some(Fact::NoPlace { place });
    }
    if !has_part(state, Part::Holds, place, hand) {
        return Some(stands(state, place));
    }
    if !matches!(phase_at(state, place), CallbackPhase::Never) {
        return Some(calls_back(state, place));
    }
    let nearest = nearest_source(state, place);
    if nearest.is_none() {
        return Some(Fact::HearsFrom { place, nearest });
    }
    None
}

/// Why the hand may not look at the source.
pub(crate) fn look_reason(
    state: &State,
    hand: u32,
    source: SourceAt,
    after: Option<Place>,
) -> Option<Fact>
    requires { hand < (machine state.now).hands }
    ensures { result ≡ look_reason (machine state.now) hand source after }
{
    match after {
        None => {
            if !is_source(state, source) {
                return Some(Fact::NoSource { source });
            }
            None
        }
        Some(place) => look_after_reason(state, hand, source, place),
    }
}

// The same, after the arming of this place.
fn look_after_reason(state: &State, hand: u32, source: SourceAt, place: Place) -> Option<Fact>
    requires { hand < (machine state.now).hands }
    ensures { result ≡ look_reason (machine state.now) hand source (Some place) }
{
    if !state.has_place(place) {
        return Some(Fact::NoPlace { place });
    }
    if !is_nearest(state, place, source) {
        let nearest = nearest_source(state, place);
        return Some(Fact::HearsFrom { place, nearest });
    }
    let after = Some(place);
    if !state.allows(hand, &Event::Look { source, after }) {
        return Some(Fact::NothingToLookAfter {
            hand,
            source,
            place,
        });
    }
    None
}

/// Why the hand may not request a stop of the source.
pub(crate) fn request_reason(
    state: &State,
    hand: u32,
    source: SourceAt,
    failure: bool,
) -> Option<Fact>
    requires { hand < (machine state.now).hands }
    ensures { result ≡ request_reason (machine state.now) hand source failure }
{
    if !is_source(state, source) {
        return Some(Fact::NoSource { source });
    }
    if !state.allows(hand, &Event::Request { source, failure }) {
        return Some(Fact::NothingToRequest {
            hand,
            source,
            failure,
        });
    }
    None
}

/// Why the hand may not end the run of the callback.
pub(crate) fn end_run_reason(state: &State, hand: u32, place: Place) -> Option<Fact>
    requires { hand < (machine state.now).hands }
    ensures { result ≡ end_run_reason (machine state.now) hand place None }
{
    if !state.has_place(place) {
        return Some(Fact::NoPlace { place });
    }
    if !has_part(state, Part::Runs, place, hand) {
        return Some(calls_back(state, place));
    }
    let source = SourceAt::At(place);
    if state.view(hand).scans(source) {
        return Some(Fact::Scans { hand, source });
    }
    None
}

/// Why the hand may not withdraw the callback from outside its run.
pub(crate) fn withdraw_reason(state: &State, hand: u32, place: Place) -> Option<Fact>
    requires { hand < (machine state.now).hands }
    ensures { result ≡ withdraw_reason (machine state.now) hand place }
{
    if !state.has_place(place) {
        return Some(Fact::NoPlace { place });
    }
    if !has_part(state, Part::Holds, place, hand) {
        return Some(stands(state, place));
    }
    if has_part(state, Part::Runs, place, hand) {
        return Some(calls_back(state, place));
    }
    if matches!(
        phase_at(state, place),
        CallbackPhase::Never | CallbackPhase::Removed
    ) {
        return Some(calls_back(state, place));
    }
    None
}

/// Why the hand may not withdraw the callback from inside its run.
pub(crate) fn withdraw_own_reason(state: &State, hand: u32, place: Place) -> Option<Fact>
    requires { hand < (machine state.now).hands }
    ensures { result ≡ withdraw_own_reason (machine state.now) hand place }
{
    if let Some(fact) = end_run_reason(state, hand, place) {
        return Some(fact);
    }
    if !has_part(state, Part::Holds, place, hand) {
        return Some(stands(state, place));
    }
    None
}
