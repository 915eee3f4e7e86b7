//! The needs of the steps of the counting scope (P3149), and of the step that wakes a parked node.
ghost use Rattle.std.specs.Prelude.{◌≡◌, ℕ};
ghost use Rattle.life_rules.specs.ScopeSteps.{may_rouse, may_enter, may_mark_used, may_leave, may_seal_as};
ghost use Rattle.exec_life.specs.Parts.{shown, IsReady};

use crate::parts::Parts;
use life_rules::{ControlWord, Place, ScopeWord};

impl Parts {
    /// Rouse: the node is parked. The hand runs its callback, or is hand 0.
    pub fn may_rouse(&self, hand: u32, place: Place) -> bool
        requires { IsReady self.now hand }
        ensures { result ≡ may_rouse (shown self.now) hand place }
    {
        self.is_place(place)
            && matches!(self.control(place), ControlWord::Parked)
            && (self.runs(hand, place) || hand == 0)
    }

    /// Enter: the hand has no association in the making or being refused.
    pub fn may_enter(&self, hand: u32) -> bool
        requires { IsReady self.now hand }
        ensures { result ≡ may_enter (shown self.now) hand }
    {
        let view = self.view(hand);
        view.making() == 0 && view.refused() == 0
    }

    /// Mark used: the hand has an association in the making.
    pub fn may_mark_used(&self, hand: u32) -> bool
        requires { IsReady self.now hand }
        ensures { result ≡ may_mark_used (shown self.now) hand }
    {
        self.view(hand).making() >= 1
    }

    /// Leave: the hand has an association that is made or being refused.
    pub fn may_leave(&self, hand: u32) -> bool
        requires { IsReady self.now hand }
        ensures { result ≡ may_leave (shown self.now) hand }
    {
        let view = self.view(hand);
        view.made() >= 1 || view.refused() >= 1
    }

    /// Seal: the word is as expected, joining, not joined, and counts none.
    pub fn may_seal(&self, expected: ScopeWord) -> bool
        ensures { result ≡ may_seal_as (shown self.now) expected }
    {
        self.words.scope() == expected
            && expected.joining
            && !expected.joined
            && expected.count == 0
    }
}
