//! Why a hand may not take a step.
#![tactic(auto, using(crate::proofs::Passing::passed, crate::proofs::Passing::stopped))]

ghost use Rattle.std.specs.Prelude.{◌≡◌, ◌<◌};
ghost use Rattle.exec_life.specs.StateLists.{machine};
ghost use Rattle.step_reasons.specs.Reasons.{reason_of, event_reason};

use crate::fact::Fact;
use crate::life_reasons::{
    await_reason, begin_reason, claim_reason, finish_reason, release_reason, report_reason,
    rest_reason, take_reason,
};
use crate::scan_reasons::{run_reason, seal_scan_reason, skip_reason};
use crate::scope_reasons::{
    enter_reason, leave_scope_reason, mark_used_reason, rouse_reason, seal_reason,
};
use crate::stop_reasons::{
    arm_reason, end_run_reason, look_reason, request_reason, withdraw_own_reason, withdraw_reason,
};
use exec_life::State;
use life_rules::Event;

/// Why the hand may not take the step: the first of its needs that doesn't hold. None where it may.
/// It takes no memory.
pub fn reason_of(state: &State, hand: u32, event: &Event) -> Option<Fact>
    ensures { result ≡ reason_of (machine state.now) hand event.now }
{
    if hand >= state.hands() {
        return Some(Fact::NoHand { hand });
    }
    event_reason(state, hand, event)
}

// The same, of a hand that is there.
fn event_reason(state: &State, hand: u32, event: &Event) -> Option<Fact>
    requires { hand < (machine state.now).hands }
    ensures { result ≡ event_reason (machine state.now) hand event.now }
{
    match event {
        Event::Claim { block } => claim_reason(state, *block),
        Event::Begin { place } => begin_reason(state, hand, *place),
        Event::Await { place, children } => await_reason(state, hand, *place, children.as_slice()),
        Event::Rest { place, to: _ } => rest_reason(state, hand, *place),
        Event::Take { place } => take_reason(state, hand, *place),
        Event::Finish { place } => finish_reason(state, hand, *place),
        Event::Report { place } => report_reason(state, hand, *place),
        Event::Release { block } => release_reason(state, hand, *block),
        Event::Arm { place } => arm_reason(state, hand, *place),
        Event::Look { source, after } => look_reason(state, hand, *source, *after),
        Event::Request { source, failure } => request_reason(state, hand, *source, *failure),
        Event::Run { source, place } => run_reason(state, hand, *source, *place),
        Event::EndRun { place } => end_run_reason(state, hand, *place),
        Event::Withdraw { place } => withdraw_reason(state, hand, *place),
        Event::WithdrawOwn { place } => withdraw_own_reason(state, hand, *place),
        Event::SealScan { source } => seal_scan_reason(state, hand, *source),
        Event::Skip { block } => skip_reason(state, hand, *block),
        Event::Rouse { place } => rouse_reason(state, hand, *place),
        Event::Enter => enter_reason(state, hand),
        Event::MarkUsed => mark_used_reason(state, hand),
        Event::Leave => leave_scope_reason(state, hand),
        Event::Close | Event::Join => None,
        Event::Seal { expected } => seal_reason(state, hand, *expected),
    }
}
