//! The steps of stop sources and their callbacks: each writes one word and the hand's cells.
ghost use Rattle.std.specs.Prelude.{◌≡◌, true};
ghost use Rattle.life_rules.specs.StopSteps.{may_arm, after_arm, may_look, after_look, may_request, after_request, may_withdraw, after_withdraw};
ghost use Rattle.exec_life.specs.Parts.{lists_of, shown, IsReady, Means};

use crate::parts::Parts;
use life_rules::{Bits, CallbackPhase, Place, SourceAt};

impl Parts {
    /// The callback is registered, and the hand hasn't looked after it yet.
    pub fn arm(&mut self, hand: u32, place: Place)
        requires ready { IsReady self.old hand }
        requires needs { may_arm (shown self.old) hand place ≡ true }
        ensures { Means (lists_of self.new) (after_arm (shown self.old) hand place) }
    {
        self.words.set_callback(place, CallbackPhase::Armed);
        self.views[hand as usize].set_unlooked(place, true);
    }

    /// A request that is read is seen, and the place is looked after.
    pub fn look(&mut self, hand: u32, source: SourceAt, after: Option<Place>)
        requires ready { IsReady self.old hand }
        requires needs { may_look (shown self.old) hand source after ≡ true }
        ensures { Means (lists_of self.new) (after_look (shown self.old) hand source after) }
    {
        let read = self.bits(source).requested;
        let view = &mut self.views[hand as usize];
        view.note(source, read);
        if let Some(place) = after {
            view.look_after(place, read);
        }
    }

    /// The request stands, and is seen. The hand that made it begins a scan.
    pub fn request(&mut self, hand: u32, source: SourceAt, failure: bool)
        requires ready { IsReady self.old hand }
        requires needs { may_request (shown self.old) hand source failure ≡ true }
        ensures { Means (lists_of self.new) (after_request (shown self.old) hand source failure) }
    {
        let bits = self.bits(source);
        let failed = bits.failed || failure;
        self.words.set_source(
            source,
            Bits {
                requested: true,
                failed,
                ..bits
            },
        );
        let view = &mut self.views[hand as usize];
        view.set_seen(source, true);
        if !bits.requested {
            view.begin_scan(source);
        }
    }

    /// An armed callback is removed. One that runs or ran tells that its source is requested.
    pub fn withdraw(&mut self, hand: u32, place: Place)
        requires ready { IsReady self.old hand }
        requires needs { may_withdraw (shown self.old) hand place ≡ true }
        ensures { Means (lists_of self.new) (after_withdraw (shown self.old) hand place) }
    {
        if self.is_armed(place) {
            self.words.set_callback(place, CallbackPhase::Removed);
        } else if let Some(source) = self.nearest(place) {
            self.views[hand as usize].set_seen(source, true);
        }
    }
}
