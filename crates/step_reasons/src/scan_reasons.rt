//! Why a hand may not take a step of a scan.
#![tactic(auto, using(crate::proofs::Passing::passed, crate::proofs::Passing::stopped))]

ghost use Rattle.std.specs.Prelude.{◌≡◌, ◌<◌};
ghost use Rattle.exec_life.specs.StateLists.{machine};
ghost use Rattle.step_reasons.specs.StopReasons.{scan_reason, run_reason, seal_scan_reason, skip_reason};

use crate::fact::Fact;
use crate::life_reasons::{block_is, calls_back};
use crate::reading::{Part, block_state, has_part, is_source, next_place, scans};
use exec_life::State;
use life_rules::{BlockState, Event, Place, SourceAt};

/// The hand makes no scan of the source, or it goes on elsewhere.
fn scan_reason(state: &State, hand: u32, source: SourceAt) -> Fact
    requires { hand < (machine state.now).hands }
    ensures { result ≡ scan_reason (machine state.now) hand source }
{
    if scans(state, hand, source) {
        let next = next_place(state, hand, source);
        Fact::GoesOnWith { hand, source, next }
    } else {
        Fact::ScansNot { hand, source }
    }
}

/// Why the hand may not pass the place in its scan.
pub(crate) fn run_reason(state: &State, hand: u32, source: SourceAt, place: Place) -> Option<Fact>
    requires { hand < (machine state.now).hands }
    ensures { result ≡ run_reason (machine state.now) hand source place }
{
    if !state.has_place(place) {
        return Some(Fact::NoPlace { place });
    }
    if has_part(state, Part::Runs, place, hand) {
        return Some(calls_back(state, place));
    }
    if !state.allows(hand, &Event::Run { source, place }) {
        return Some(scan_reason(state, hand, source));
    }
    None
}

/// Why the hand may not seal its scan.
pub(crate) fn seal_scan_reason(state: &State, hand: u32, source: SourceAt) -> Option<Fact>
    requires { hand < (machine state.now).hands }
    ensures { result ≡ seal_scan_reason (machine state.now) hand source }
{
    if !is_source(state, source) {
        return Some(Fact::NoSource { source });
    }
    if !state.allows(hand, &Event::SealScan { source }) {
        return Some(scan_reason(state, hand, source));
    }
    None
}

/// Why the hand may not pass the block in its scan of the scope.
pub(crate) fn skip_reason(state: &State, hand: u32, block: u32) -> Option<Fact>
    requires { hand < (machine state.now).hands }
    ensures { result ≡ skip_reason (machine state.now) hand block }
{
    if block >= state.blocks() {
        return Some(Fact::NoBlock { block });
    }
    if !matches!(block_state(state, block), BlockState::Free) {
        return Some(block_is(state, block));
    }
    if !state.allows(hand, &Event::Skip { block }) {
        return Some(scan_reason(state, hand, SourceAt::Scope));
    }
    None
}
