//! The steps of the counting scope, and the step that wakes a parked node.
ghost use Rattle.std.specs.Prelude.{◌≡◌, true};
ghost use Rattle.life_rules.specs.Scopes.{is_refused};
ghost use Rattle.life_rules.specs.ScopeSteps.{may_rouse, after_rouse, may_enter, after_enter, may_mark_used, after_mark_used, may_leave, after_leave, after_close, after_join, after_seal};
ghost use Rattle.exec_life.specs.Parts.{lists_of, shown, IsReady, Means};
ghost use Rattle.exec_life.specs.StateLists.{IsState};

use crate::parts::Parts;
use life_rules::{ControlWord, Place, ScopeWord, refusal};

// Whether a scope turns an association away.
fn is_refused(word: ScopeWord, most: u32) -> bool
    ensures { result ≡ is_refused word most }
{
    refusal(word, most).is_some()
}

impl Parts {
    /// The parked node is ready in the loop.
    pub fn rouse(&mut self, hand: u32, place: Place)
        requires ready { IsReady self.old hand }
        requires needs { may_rouse (shown self.old) hand place ≡ true }
        ensures { Means (lists_of self.new) (after_rouse (shown self.old) hand place) }
    {
        self.words.set_control(place, ControlWord::ReadyLoop);
    }

    /// The count rises, also for an association that is refused.
    pub fn enter(&mut self, hand: u32)
        requires ready { IsReady self.old hand }
        requires needs { may_enter (shown self.old) hand ≡ true }
        ensures { Means (lists_of self.new) (after_enter (shown self.old) hand) }
    {
        let word = self.words.scope();
        let refused = is_refused(word, self.most);
        self.views[hand as usize].add_association(refused, word.used);
        self.words.set_scope(ScopeWord {
            count: word.count + 1,
            ..word
        });
    }

    /// The scope is used, and the hand's association is made.
    pub fn mark_used(&mut self, hand: u32)
        requires ready { IsReady self.old hand }
        requires needs { may_mark_used (shown self.old) hand ≡ true }
        ensures { Means (lists_of self.new) (after_mark_used (shown self.old) hand) }
    {
        let word = self.words.scope();
        self.words.set_scope(ScopeWord { used: true, ..word });
        self.views[hand as usize].finish_making();
    }

    /// The count falls, and an association of the hand is gone: one that is being refused goes
    /// first.
    pub fn leave(&mut self, hand: u32)
        requires ready { IsReady self.old hand }
        requires needs { may_leave (shown self.old) hand ≡ true }
        ensures { Means (lists_of self.new) (after_leave (shown self.old) hand) }
    {
        let word = self.words.scope();
        self.words.set_scope(ScopeWord {
            count: word.count.saturating_sub(1),
            ..word
        });
        self.views[hand as usize].drop_association();
    }

    /// No association is made any more.
    pub fn close(&mut self)
        requires { IsState (lists_of self.old) }
        ensures { Means (lists_of self.new) (after_close (shown self.old)) }
    {
        let word = self.words.scope();
        self.words.set_scope(ScopeWord {
            closed: true,
            ..word
        });
    }

    /// The scope is to be joined once its count is 0.
    pub fn join(&mut self)
        requires { IsState (lists_of self.old) }
        ensures { Means (lists_of self.new) (after_join (shown self.old)) }
    {
        let word = self.words.scope();
        self.words.set_scope(ScopeWord {
            joining: true,
            ..word
        });
    }

    /// The scope is joined.
    pub fn seal(&mut self)
        requires { IsState (lists_of self.old) }
        ensures { Means (lists_of self.new) (after_seal (shown self.old)) }
    {
        let word = self.words.scope();
        self.words.set_scope(ScopeWord {
            joined: true,
            ..word
        });
    }
}
