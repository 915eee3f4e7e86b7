//! The steps of a scan: each writes one word, or none, and the hand's cells.
ghost use Rattle.std.specs.Prelude.{◌≡◌, true};
ghost use Rattle.life_rules.specs.StopSteps.{may_run, after_run, may_end_run, after_end_run, may_withdraw_own, after_withdraw_own, may_seal_scan, after_seal_scan, may_skip, after_skip};
ghost use Rattle.exec_life.specs.Parts.{lists_of, shown, IsReady, Means, after_run_over};

use crate::parts::Parts;
use life_rules::{Bits, CallbackPhase, Place, SourceAt};

impl Parts {
    /// An armed callback runs now, and any other place is passed.
    pub fn run(&mut self, hand: u32, source: SourceAt, place: Place)
        requires ready { IsReady self.old hand }
        requires needs { may_run (shown self.old) hand source place ≡ true }
        ensures { Means (lists_of self.new) (after_run (shown self.old) hand source place) }
    {
        if self.is_armed(place) {
            self.words.set_callback(place, CallbackPhase::Running);
            self.views[hand as usize].set_runs(place, true);
        } else {
            let next = self.index(place) + 1;
            self.views[hand as usize].set_scan(source, Some(next));
        }
    }

    // The hand no longer runs the place, whose callback is then in this phase, and its scan has
    // passed it.
    fn leave_run(&mut self, hand: u32, place: Place, phase: CallbackPhase)
        requires ready { IsReady self.old hand }
        requires needs { may_end_run (shown self.old) hand place ≡ true }
        ensures { Means (lists_of self.new) (after_run_over (shown self.old) hand place phase) }
    {
        let nearest = self.nearest(place);
        let next = self.index(place) + 1;
        self.words.set_callback(place, phase);
        let view = &mut self.views[hand as usize];
        view.set_runs(place, false);
        if let Some(source) = nearest {
            view.set_scan(source, Some(next));
        }
    }

    /// The callback has run, and the scan has passed it.
    pub fn end_run(&mut self, hand: u32, place: Place)
        requires ready { IsReady self.old hand }
        requires needs { may_end_run (shown self.old) hand place ≡ true }
        ensures { Means (lists_of self.new) (after_end_run (shown self.old) hand place) }
    {
        self.leave_run(hand, place, CallbackPhase::Ran);
    }

    /// The callback is removed from inside its own run, and the scan has passed it.
    pub fn withdraw_own(&mut self, hand: u32, place: Place)
        requires ready { IsReady self.old hand }
        requires needs { may_withdraw_own (shown self.old) hand place ≡ true }
        ensures { Means (lists_of self.new) (after_withdraw_own (shown self.old) hand place) }
    {
        self.leave_run(hand, place, CallbackPhase::Removed);
    }

    /// The scan is over, and the source's word says so.
    pub fn seal_scan(&mut self, hand: u32, source: SourceAt)
        requires ready { IsReady self.old hand }
        requires needs { may_seal_scan (shown self.old) hand source ≡ true }
        ensures { Means (lists_of self.new) (after_seal_scan (shown self.old) hand source) }
    {
        let bits = self.bits(source);
        self.words.set_source(
            source,
            Bits {
                scanned: true,
                ..bits
            },
        );
        self.views[hand as usize].set_scan(source, None);
    }

    /// The scan goes on in the next block.
    pub fn skip(&mut self, hand: u32, block: u32)
        requires ready { IsReady self.old hand }
        requires needs { may_skip (shown self.old) hand block ≡ true }
        ensures { Means (lists_of self.new) (after_skip (shown self.old) hand block) }
    {
        let next = (block + 1) * self.tree.size();
        self.views[hand as usize].set_scan(SourceAt::Scope, Some(next));
    }
}
