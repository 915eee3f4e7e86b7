//! The needs of the steps of stop sources and their callbacks ([stopsource], [stopcallback]).
ghost use Rattle.std.specs.Prelude.{◌≡◌, ◌<◌, true};
ghost use Rattle.life_rules.specs.States.{size, is_place, name_at};
ghost use Rattle.life_rules.specs.StopSteps.{source_of, is_source, may_arm, may_look, owes_report_below, has_begun_below, has_seen_nearest, may_forward, has, is_live_for, may_request_first, may_repeat, may_request, may_end_run, may_withdraw, may_withdraw_own};
ghost use Rattle.exec_life.specs.Parts.{lists_of, shown, IsReady, is_in_block, owes_report_of, is_begun_child};
ghost use Rattle.exec_life.specs.StateLists.{IsState};

use crate::parts::Parts;
use life_rules::{CallbackPhase, ControlWord, Place, SourceAt};
use node_tree::ScopeKind;

impl Parts {
    /// Arm: the hand holds the node, whose callback place is none, and whose nearest source is one.
    pub fn may_arm(&self, hand: u32, place: Place) -> bool
        requires { IsReady self.now hand }
        ensures { result ≡ may_arm (shown self.now) hand place }
    {
        self.is_place(place)
            && self.holds(hand, place)
            && matches!(self.phase(place), CallbackPhase::Never)
            && self.nearest(place).is_some()
    }

    /// Look: at any source; or, after an arming that wasn't looked after yet, at that place's
    /// nearest.
    pub fn may_look(&self, hand: u32, source: SourceAt, after: Option<Place>) -> bool
        requires { IsReady self.now hand }
        ensures { result ≡ may_look (shown self.now) hand source after }
    {
        match after {
            None => self.is_source(source),
            Some(place) => {
                self.is_place(place)
                    && self.is_unlooked(hand, place)
                    && self.is_nearest(place, source)
            }
        }
    }

    // The node is a child of the place's node, and the hand owes its report.
    fn owes_report_of(&self, hand: u32, place: Place, node: u32) -> bool
        requires ready { IsReady self.now hand }
        requires place { is_place (shown self.now) place ≡ true }
        requires node { node < size (shown self.now) }
        ensures { let s = shown self.now in
            result ≡ owes_report_of s (s.view hand) (name_at s place) node }
    {
        let below = Place {
            block: place.block,
            node,
        };
        self.parent(node) == Some(place.node) && self.owes_report(hand, below)
    }

    // The hand owes the report of a child of the place's node.
    fn owes_report_below(&self, hand: u32, place: Place) -> bool
        requires ready { IsReady self.now hand }
        requires place { is_place (shown self.now) place ≡ true }
        ensures { let s = shown self.now in
            result ≡ owes_report_below s (s.view hand) (name_at s place) }
    {
        for node in 0..self.tree.size() {
            if self.owes_report_of(hand, place, node) {
                return true;
            }
        }
        false
    }

    // The node is a child of the place's node, and has begun.
    fn is_begun_child(&self, place: Place, node: u32) -> bool
        requires state { IsState (lists_of self.now) }
        requires place { is_place (shown self.now) place ≡ true }
        requires node { node < size (shown self.now) }
        ensures { let s = shown self.now in result ≡ is_begun_child s (name_at s place) node }
    {
        let below = Place {
            block: place.block,
            node,
        };
        self.parent(node) == Some(place.node) && !matches!(self.control(below), ControlWord::Idle)
    }

    // Some child of the place's node has begun.
    fn has_begun_below(&self, place: Place) -> bool
        requires state { IsState (lists_of self.now) }
        requires place { is_place (shown self.now) place ≡ true }
        ensures { let s = shown self.now in result ≡ has_begun_below s (name_at s place) }
    {
        for node in 0..self.tree.size() {
            if self.is_begun_child(place, node) {
                return true;
            }
        }
        false
    }

    // The hand has seen the request on the node's nearest source.
    fn has_seen_nearest(&self, hand: u32, place: Place) -> bool
        requires ready { IsReady self.now hand }
        requires place { is_place (shown self.now) place ≡ true }
        ensures { let s = shown self.now in
            result ≡ has_seen_nearest s (s.view hand) (name_at s place) }
    {
        match self.nearest(place) {
            None => false,
            Some(source) => self.has_seen(hand, source),
        }
    }

    // The hand passes the request of the nearest source on to the node.
    fn may_forward(&self, hand: u32, place: Place) -> bool
        requires ready { IsReady self.now hand }
        requires place { is_place (shown self.now) place ≡ true }
        ensures { let s = shown self.now in
            result ≡ may_forward s (s.view hand) (name_at s place) }
    {
        self.runs(hand, place)
            || self.holds(hand, place)
                && !self.has_begun_below(place)
                && self.has_seen_nearest(hand, place)
    }

    // The hand has the node in some way that keeps its block from being released.
    fn has(&self, hand: u32, place: Place) -> bool
        requires ready { IsReady self.now hand }
        requires place { is_place (shown self.now) place ≡ true }
        ensures { let s = shown self.now in result ≡ has (s.view hand) (name_at s place) }
    {
        self.has_role(hand, place) || self.runs(hand, place)
    }

    // The hand is in the operation of this block.
    fn is_in(&self, hand: u32, block: u32) -> bool
        requires ready { IsReady self.now hand }
        requires block { block < (shown self.now).blocks }
        ensures { result ≡ is_in_block (shown self.now) hand block }
    {
        for node in 0..self.tree.size() {
            if self.has(hand, Place { block, node }) {
                return true;
            }
        }
        false
    }

    // The source can't go away under the hand.
    fn is_live_for(&self, hand: u32, source: SourceAt) -> bool
        requires ready { IsReady self.now hand }
        requires source { is_source (shown self.now) source ≡ true }
        ensures { let s = shown self.now in
            result ≡ is_live_for s (s.view hand) (source_of s source) }
    {
        match source {
            SourceAt::Scope => true,
            SourceAt::At(place) => self.is_in(hand, place.block),
        }
    }

    // A first request: on the scope by hand 0; on a node because a child failed, whose report the
    // hand owes, or to pass a request on.
    fn may_request_first(&self, hand: u32, source: SourceAt, failure: bool) -> bool
        requires ready { IsReady self.now hand }
        requires source { is_source (shown self.now) source ≡ true }
        ensures { result ≡ may_request_first (shown self.now) hand source failure }
    {
        match source {
            SourceAt::Scope => !failure && hand == 0 && matches!(self.kind, ScopeKind::Counting),
            SourceAt::At(place) => {
                if failure {
                    self.owes_report_below(hand, place)
                } else {
                    self.may_forward(hand, place)
                }
            }
        }
    }

    // A request again, by a hand that has seen it.
    fn may_repeat(&self, hand: u32, source: SourceAt, failure: bool) -> bool
        requires ready { IsReady self.now hand }
        requires source { is_source (shown self.now) source ≡ true }
        ensures { let s = shown self.now in
            result ≡ may_repeat s (s.view hand) (source_of s source) failure }
    {
        !failure && self.has_seen(hand, source) && self.is_live_for(hand, source)
    }

    /// Request: a first one, or one again.
    pub fn may_request(&self, hand: u32, source: SourceAt, failure: bool) -> bool
        requires { IsReady self.now hand }
        ensures { result ≡ may_request (shown self.now) hand source failure }
    {
        self.is_source(source)
            && (self.may_request_first(hand, source, failure)
                || self.may_repeat(hand, source, failure))
    }

    /// End run: the hand runs the place, and makes no scan of the node's own source.
    pub fn may_end_run(&self, hand: u32, place: Place) -> bool
        requires { IsReady self.now hand }
        ensures { result ≡ may_end_run (shown self.now) hand place }
    {
        self.is_place(place) && self.runs(hand, place) && !self.scans_at(hand, place)
    }

    /// Withdraw: the hand holds the node and doesn't run its callback, which is armed, running or
    /// ran.
    pub fn may_withdraw(&self, hand: u32, place: Place) -> bool
        requires { IsReady self.now hand }
        ensures { result ≡ may_withdraw (shown self.now) hand place }
    {
        self.is_place(place)
            && self.holds(hand, place)
            && !self.runs(hand, place)
            && matches!(
                self.phase(place),
                CallbackPhase::Armed | CallbackPhase::Running | CallbackPhase::Ran
            )
    }

    /// Withdraw own: the hand holds the node, runs its callback, and doesn't scan the node's own
    /// source.
    pub fn may_withdraw_own(&self, hand: u32, place: Place) -> bool
        requires { IsReady self.now hand }
        ensures { result ≡ may_withdraw_own (shown self.now) hand place }
    {
        self.may_end_run(hand, place) && self.holds(hand, place)
    }
}
