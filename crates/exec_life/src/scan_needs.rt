//! The needs of the steps of a scan, which passes the places of a source by rising block and node.
ghost use Rattle.std.specs.Prelude.{◌≡◌, ◌<◌, ◌≤◌, ◌-◌, ℕ, true};
ghost use Rattle.life_rules.specs.Scans.{end, has_none, is_next, is_next_in, is_past_all, index};
ghost use Rattle.life_rules.specs.States.{is_place, name_at};
ghost use Rattle.life_rules.specs.StopSteps.{source_of, may_run, may_seal_scan, may_skip};
ghost use Rattle.exec_life.specs.Parts.{lists_of, shown, IsReady, is_next_in_block};
ghost use Rattle.exec_life.specs.StateLists.{IsState};

use crate::parts::Parts;
use life_rules::{BlockState, Place, SourceAt};

impl Parts {
    /// The number of a place in the order of a scan.
    pub fn index(&self, place: Place) -> u32
        requires state { IsState (lists_of self.now) }
        requires place { is_place (shown self.now) place ≡ true }
        ensures number { let s = shown self.now in result ≡ index s (name_at s place) }
        ensures within { let s = shown self.now in result < end s }
    {
        place.block * self.tree.size() + place.node
    }

    // The number after the last.
    fn end(&self) -> u32
        requires { IsState (lists_of self.now) }
        ensures { result ≡ end (shown self.now) }
    {
        self.tree.size() * self.words.blocks()
    }

    // No place with a number in this range is the source's.
    fn has_none(&self, source: SourceAt, from: u32, to: u32) -> bool
        requires state { IsState (lists_of self.now) }
        requires within { to ≤ end (shown self.now) }
        ensures { let s = shown self.now in
            result ≡ has_none s (source_of s source) from (to - from) }
    {
        let size = self.tree.size();
        for number in from..to {
            let place = Place {
                block: number / size,
                node: number % size,
            };
            if self.is_nearest(place, source) {
                return false;
            }
        }
        true
    }

    // The place is the next of the hand's scan.
    fn is_next_in(&self, hand: u32, source: SourceAt, place: Place) -> bool
        requires ready { IsReady self.now hand }
        requires place { is_place (shown self.now) place ≡ true }
        ensures { let s = shown self.now in
            result ≡ is_next_in s (s.view hand) (source_of s source) (name_at s place) }
    {
        match self.scan(hand, source) {
            None => false,
            Some(from) => {
                let number = self.index(place);
                self.is_nearest(place, source)
                    && from <= number
                    && self.has_none(source, from, number)
            }
        }
    }

    /// Run: the place is the next of the hand's scan, and its callback doesn't run.
    pub fn may_run(&self, hand: u32, source: SourceAt, place: Place) -> bool
        requires { IsReady self.now hand }
        ensures { result ≡ may_run (shown self.now) hand source place }
    {
        self.is_place(place) && self.is_next_in(hand, source, place) && !self.runs(hand, place)
    }

    /// Seal scan: the hand's scan has passed all places.
    pub fn may_seal_scan(&self, hand: u32, source: SourceAt) -> bool
        requires { IsReady self.now hand }
        ensures { result ≡ may_seal_scan (shown self.now) hand source }
    {
        match self.scan(hand, source) {
            None => false,
            Some(from) => self.is_source(source) && self.has_none(source, from, self.end()),
        }
    }

    // The next place of the hand's scan of the scope lies in the block, and its callback doesn't
    // run.
    fn may_go_past(&self, hand: u32, block: u32) -> bool
        requires ready { IsReady self.now hand }
        requires block { block < (shown self.now).blocks }
        ensures { result ≡ is_next_in_block (shown self.now) hand block }
    {
        for node in 0..self.tree.size() {
            if self.may_run(hand, SourceAt::Scope, Place { block, node }) {
                return true;
            }
        }
        false
    }

    /// Skip: the next place of the hand's scan of the scope lies in this block, which is free.
    pub fn may_skip(&self, hand: u32, block: u32) -> bool
        requires { IsReady self.now hand }
        ensures { result ≡ may_skip (shown self.now) hand block }
    {
        block < self.words.blocks()
            && matches!(self.words.block(block).state, BlockState::Free)
            && self.may_go_past(hand, block)
    }
}
