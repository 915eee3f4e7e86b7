//! The parts of a state, and what the steps' needs read of them.
ghost use Rattle.std.specs.Prelude.{◌≡◌, ◌<◌, ◌==◌, true, nat_le, slice_get, not, IfSome};
ghost use Rattle.std.specs.Option.{option_map};
ghost use Rattle.life_rules.specs.LifeSteps.{root_of};
ghost use Rattle.life_rules.specs.States.{size, is_place, name_at, control_at, phase_at, bits_at, nearest_of};
ghost use Rattle.life_rules.specs.Scans.{is_nearest};
ghost use Rattle.life_rules.specs.StopSteps.{source_of, is_source};
ghost use Rattle.life_rules.specs.declared.event.SourceRef.TheVariants.{Node};
ghost use Rattle.node_tree.specs.Tree.{parent_of, has_source};
ghost use Rattle.life_rules.specs.Views.{is_scanning};
ghost use Rattle.life_rules.specs.Words.{is_armed};
ghost use Rattle.exec_life.specs.Parts.{lists_of, shown, IsReady, roles_of};
ghost use Rattle.exec_life.specs.StateLists.{IsState};
ghost use Rattle.exec_life.specs.ViewLists.{KnowsPlace};

use crate::view::{Role, View};
use crate::words::Words;
use life_rules::{Bits, CallbackPhase, ControlWord, Place, SourceAt};
use node_tree::{NearestSource, ScopeKind, Tree};

/// The parts of a state.
#[derive(Drop)]
pub struct Parts {
    pub tree: Tree,
    pub kind: ScopeKind,
    pub most: u32,
    pub words: Words,
    /// One for each hand.
    pub views: Vec<View>,
}

impl Parts {
    /// The view of a hand.
    pub fn view(&self, hand: u32) -> &View
        requires { hand < (shown self.now).hands }
        ensures { slice_get self.now.views.items hand ≡ Some result.now }
    {
        &self.views[hand as usize]
    }

    /// The view of a hand, which knows this place.
    fn view_at(&self, hand: u32, place: Place) -> &View
        requires ready { IsReady self.now hand }
        requires place { is_place (shown self.now) place ≡ true }
        ensures view { slice_get self.now.views.items hand ≡ Some result.now }
        ensures knows { KnowsPlace result.now place }
    {
        &self.views[hand as usize]
    }

    /// Whether the place exists.
    pub fn is_place(&self, place: Place) -> bool
        requires { IsState (lists_of self.now) }
        ensures { result ≡ is_place (shown self.now) place }
    {
        place.block < self.words.blocks() && place.node < self.tree.size()
    }

    /// Whether the hand holds the node.
    pub fn holds(&self, hand: u32, place: Place) -> bool
        requires ready { IsReady self.now hand }
        requires place { is_place (shown self.now) place ≡ true }
        ensures { let s = shown self.now in
            result ≡ nat_le 1 ((s.view hand).holds (name_at s place)) }
    {
        self.view_at(hand, place).holds(place)
    }

    /// Whether the hand owes the node's start.
    pub fn owes_start(&self, hand: u32, place: Place) -> bool
        requires ready { IsReady self.now hand }
        requires place { is_place (shown self.now) place ≡ true }
        ensures { let s = shown self.now in
            result ≡ nat_le 1 ((s.view hand).starts (name_at s place)) }
    {
        self.view_at(hand, place).owes_start(place)
    }

    /// Whether the hand owes the report of the node.
    pub fn owes_report(&self, hand: u32, place: Place) -> bool
        requires ready { IsReady self.now hand }
        requires place { is_place (shown self.now) place ≡ true }
        ensures { let s = shown self.now in
            result ≡ nat_le 1 ((s.view hand).reports (name_at s place)) }
    {
        self.view_at(hand, place).owes_report(place)
    }

    /// Whether the hand holds the finished root of the block.
    pub fn holds_finished(&self, hand: u32, block: u32) -> bool
        requires ready { IsReady self.now hand }
        requires block { block < (shown self.now).blocks }
        ensures { let s = shown self.now in
            result ≡ nat_le 1 ((s.view hand).finished (root_of s block)) }
    {
        self.view(hand).holds_finished(block)
    }

    /// Whether the hand runs the node's callback.
    pub fn runs(&self, hand: u32, place: Place) -> bool
        requires ready { IsReady self.now hand }
        requires place { is_place (shown self.now) place ≡ true }
        ensures some { let s = shown self.now in
            result ≡ nat_le 1 ((s.view hand).runs (name_at s place)) }
        ensures none { let s = shown self.now in
            not result ≡ ((s.view hand).runs (name_at s place) == 0) }
    {
        self.view_at(hand, place).runs(place)
    }

    /// Whether the hand holds the node, owes its start or its report, or holds it as a finished
    /// root.
    pub fn has_role(&self, hand: u32, place: Place) -> bool
        requires ready { IsReady self.now hand }
        requires place { is_place (shown self.now) place ≡ true }
        ensures { let s = shown self.now in
            result ≡ nat_le 1 (roles_of (s.view hand) (name_at s place)) }
    {
        !matches!(self.view_at(hand, place).role(place), Role::Nothing)
    }

    /// Whether the hand armed the place and hasn't looked after it yet.
    pub fn is_unlooked(&self, hand: u32, place: Place) -> bool
        requires ready { IsReady self.now hand }
        requires place { is_place (shown self.now) place ≡ true }
        ensures { let s = shown self.now in result ≡ (s.view hand).unlooked (name_at s place) }
    {
        self.view_at(hand, place).unlooked(place)
    }

    /// Whether the hand scans the callbacks of the node's own source.
    pub fn scans_at(&self, hand: u32, place: Place) -> bool
        requires ready { IsReady self.now hand }
        requires place { is_place (shown self.now) place ≡ true }
        ensures { let s = shown self.now in
            result ≡ is_scanning (s.view hand) (Node (name_at s place)) }
    {
        self.view_at(hand, place).scans(SourceAt::At(place))
    }

    /// The node's control word.
    pub fn control(&self, place: Place) -> ControlWord
        requires state { IsState (lists_of self.now) }
        requires place { is_place (shown self.now) place ≡ true }
        ensures { let s = shown self.now in result ≡ control_at s (name_at s place) }
    {
        self.words.control(place)
    }

    /// What has become of the node's callback.
    pub fn phase(&self, place: Place) -> CallbackPhase
        requires state { IsState (lists_of self.now) }
        requires place { is_place (shown self.now) place ≡ true }
        ensures { let s = shown self.now in result ≡ phase_at s (name_at s place) }
    {
        self.words.callback(place)
    }

    /// Whether the node's callback is registered.
    pub fn is_armed(&self, place: Place) -> bool
        requires state { IsState (lists_of self.now) }
        requires place { is_place (shown self.now) place ≡ true }
        ensures { let s = shown self.now in result ≡ is_armed (phase_at s (name_at s place)) }
    {
        matches!(self.phase(place), CallbackPhase::Armed)
    }

    /// What a source's word says.
    pub fn bits(&self, source: SourceAt) -> Bits
        requires state { IsState (lists_of self.now) }
        requires source { is_source (shown self.now) source ≡ true }
        ensures { let s = shown self.now in result ≡ bits_at s (source_of s source) }
    {
        self.words.source(source)
    }

    /// The node's parent: none for the root.
    pub fn parent(&self, node: u32) -> Option<u32>
        requires { node < size (shown self.now) }
        ensures { result ≡ parent_of (shown self.now).tree node }
    {
        self.tree.node(node).parent
    }

    /// Whether the node has a source.
    pub fn has_source(&self, node: u32) -> bool
        requires { node < size (shown self.now) }
        ensures { result ≡ has_source (shown self.now).tree node }
    {
        self.tree.node(node).source
    }

    /// Whether there is such a source: the scope's, or that of a node that has one.
    pub fn is_source(&self, source: SourceAt) -> bool
        requires { IsState (lists_of self.now) }
        ensures { result ≡ is_source (shown self.now) source }
    {
        match source {
            SourceAt::Scope => true,
            SourceAt::At(place) => self.is_place(place) && self.has_source(place.node),
        }
    }

    /// The source on which the node's callback is registered.
    pub fn nearest(&self, place: Place) -> Option<SourceAt>
        requires state { IsState (lists_of self.now) }
        requires place { is_place (shown self.now) place ≡ true }
        ensures source { let s = shown self.now in
            option_map (source_of s) result ≡ nearest_of s (name_at s place) }
        ensures exists { IfSome result (λ source. is_source (shown self.now) source ≡ true) }
    {
        match self.tree.nearest(place.node) {
            NearestSource::Scope => Some(SourceAt::Scope),
            NearestSource::Node(node) => Some(SourceAt::At(Place {
                block: place.block,
                node,
            })),
            NearestSource::Nowhere => None,
        }
    }

    /// Whether the node's callback is registered on this source.
    pub fn is_nearest(&self, place: Place, source: SourceAt) -> bool
        requires state { IsState (lists_of self.now) }
        requires place { is_place (shown self.now) place ≡ true }
        ensures { let s = shown self.now in
            result ≡ is_nearest s (source_of s source) (name_at s place) }
    {
        self.nearest(place) == Some(source)
    }

    /// Whether the hand has seen the request on this source.
    pub fn has_seen(&self, hand: u32, source: SourceAt) -> bool
        requires ready { IsReady self.now hand }
        requires source { is_source (shown self.now) source ≡ true }
        ensures { let s = shown self.now in result ≡ (s.view hand).seen (source_of s source) }
    {
        self.view(hand).seen(source)
    }

    /// From where the hand's scan of this source goes on; none where the source doesn't exist.
    pub fn scan(&self, hand: u32, source: SourceAt) -> Option<u32>
        requires { IsReady self.now hand }
        ensures { let s = shown self.now in result ≡ (s.view hand).scan (source_of s source) }
    {
        if let SourceAt::At(place) = source
            && !self.is_place(place)
        {
            return None;
        }
        self.view(hand).scan(source)
    }
}
