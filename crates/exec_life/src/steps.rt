//! Which steps a hand may take, and what each does, for all kinds of event.
ghost use Rattle.std.specs.Prelude.{◌≡◌, true};
ghost use Rattle.life_rules.specs.Steps.{may_happen, after};
ghost use Rattle.exec_life.specs.Parts.{lists_of, shown, IsReady, Means};

use crate::parts::Parts;
use life_rules::Event;

impl Parts {
    /// Whether the hand may take the step.
    pub fn allows(&self, hand: u32, event: &Event) -> bool
        requires { IsReady self.now hand }
        ensures { result ≡ may_happen (shown self.now) hand event.now }
    {
        match event {
            Event::Claim { block } => self.may_claim(*block),
            Event::Begin { place } => self.may_begin(hand, *place),
            Event::Await { place, children } => self.may_await(hand, *place, children),
            Event::Rest { place, to: _ } => self.may_rest(hand, *place),
            Event::Take { place } => self.may_take(hand, *place),
            Event::Finish { place } => self.may_finish(hand, *place),
            Event::Report { place } => self.may_report(hand, *place),
            Event::Release { block } => self.may_release(hand, *block),
            Event::Arm { place } => self.may_arm(hand, *place),
            Event::Look { source, after } => self.may_look(hand, *source, *after),
            Event::Request { source, failure } => self.may_request(hand, *source, *failure),
            Event::Run { source, place } => self.may_run(hand, *source, *place),
            Event::EndRun { place } => self.may_end_run(hand, *place),
            Event::Withdraw { place } => self.may_withdraw(hand, *place),
            Event::WithdrawOwn { place } => self.may_withdraw_own(hand, *place),
            Event::SealScan { source } => self.may_seal_scan(hand, *source),
            Event::Skip { block } => self.may_skip(hand, *block),
            Event::Rouse { place } => self.may_rouse(hand, *place),
            Event::Enter => self.may_enter(hand),
            Event::MarkUsed => self.may_mark_used(hand),
            Event::Leave => self.may_leave(hand),
            Event::Close | Event::Join => true,
            Event::Seal { expected } => self.may_seal(*expected),
        }
    }

    /// The hand takes the step.
    pub fn take_step(&mut self, hand: u32, event: &Event)
        requires ready { IsReady self.old hand }
        requires needs { may_happen (shown self.old) hand event.now ≡ true }
        ensures { Means (lists_of self.new) (after (shown self.old) hand event.now) }
    {
        match event {
            Event::Claim { block } => self.claim(hand, *block),
            Event::Begin { place } => self.begin(hand, *place),
            Event::Await { place, children } => self.await_children(
                hand,
                *place,
                children.as_slice(),
            ),
            Event::Rest { place, to } => self.rest(hand, *place, *to),
            Event::Take { place } => self.take(hand, *place),
            Event::Finish { place } => self.finish(hand, *place),
            Event::Report { place } => self.report(hand, *place),
            Event::Release { block } => self.release(hand, *block),
            Event::Arm { place } => self.arm(hand, *place),
            Event::Look { source, after } => self.look(hand, *source, *after),
            Event::Request { source, failure } => self.request(hand, *source, *failure),
            Event::Run { source, place } => self.run(hand, *source, *place),
            Event::EndRun { place } => self.end_run(hand, *place),
            Event::Withdraw { place } => self.withdraw(hand, *place),
            Event::WithdrawOwn { place } => self.withdraw_own(hand, *place),
            Event::SealScan { source } => self.seal_scan(hand, *source),
            Event::Skip { block } => self.skip(hand, *block),
            Event::Rouse { place } => self.rouse(hand, *place),
            Event::Enter => self.enter(hand),
            Event::MarkUsed => self.mark_used(hand),
            Event::Leave => self.leave(hand),
            Event::Close => self.close(),
            Event::Join => self.join(),
            Event::Seal { expected: _ } => self.seal(),
        }
    }
}
