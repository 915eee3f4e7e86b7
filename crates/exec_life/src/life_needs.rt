//! The needs of the steps of an operation's life.
ghost use Rattle.std.specs.Prelude.{◌≡◌, ◌<◌, ℕ, true, length};
ghost use Rattle.std.specs.List.{list_all};
ghost use Rattle.life_rules.specs.LifeSteps.{may_leave_node, may_claim, may_begin, may_be_awaited, may_await, may_rest, may_take, may_finish, may_report, may_release};
ghost use Rattle.common_lemmas.specs.Lists.{are_different};
ghost use Rattle.life_rules.specs.States.{is_place, name_at};
ghost use Rattle.life_rules.specs.Words.{may_be_taken};
ghost use Rattle.exec_life.specs.Parts.{lists_of, shown, IsReady};
ghost use Rattle.exec_life.specs.StateLists.{IsState};

use crate::parts::Parts;
use life_rules::{BlockState, CallbackPhase, ControlWord, Place};
use node_tree::NodeList;

// What is ready in the pool any hand may take, all else hand 0.
fn may_be_taken(word: ControlWord, hand: u32) -> bool
    ensures { result ≡ may_be_taken word hand }
{
    match word {
        ControlWord::ReadyPool => true,
        ControlWord::ReadyLoop | ControlWord::Parked => hand == 0,
        ControlWord::Idle | ControlWord::Busy(_) | ControlWord::Done => false,
    }
}

// No node stands twice in the list.
fn are_different(nodes: &[u32]) -> bool
    ensures { result ≡ are_different nodes.now }
{
    for (index, node) in nodes.iter().enumerate() {
        if nodes[index + 1..].contains(node) {
            return false;
        }
    }
    true
}

impl Parts {
    /// Claim: the block is free.
    pub fn may_claim(&self, block: u32) -> bool
        requires { IsState (lists_of self.now) }
        ensures { (hand : ℕ) → result ≡ may_claim (shown self.now) hand block }
    {
        block < self.words.blocks() && matches!(self.words.block(block).state, BlockState::Free)
    }

    /// Begin: the hand owes the start.
    pub fn may_begin(&self, hand: u32, place: Place) -> bool
        requires { IsReady self.now hand }
        ensures { result ≡ may_begin (shown self.now) hand place }
    {
        self.is_place(place) && self.owes_start(hand, place)
    }

    // The hand holds the node, and makes no scan of the node's own source.
    fn may_leave_node(&self, hand: u32, place: Place) -> bool
        requires ready { IsReady self.now hand }
        requires place { is_place (shown self.now) place ≡ true }
        ensures { let s = shown self.now in
            result ≡ may_leave_node (s.view hand) (name_at s place) }
    {
        self.holds(hand, place) && !self.scans_at(hand, place)
    }

    // The node is a child of the place's node, and hasn't begun.
    fn may_be_awaited(&self, place: Place, child: u32) -> bool
        requires state { IsState (lists_of self.now) }
        requires place { is_place (shown self.now) place ≡ true }
        ensures { let s = shown self.now in result ≡ may_be_awaited s (name_at s place) child }
    {
        if child >= self.tree.size() || self.parent(child) != Some(place.node) {
            return false;
        }
        let below = Place {
            block: place.block,
            node: child,
        };
        matches!(self.control(below), ControlWord::Idle)
    }

    // Each of these nodes is a child of the place's node, and hasn't begun.
    fn may_all_be_awaited(&self, place: Place, children: &[u32]) -> bool
        requires state { IsState (lists_of self.now) }
        requires place { is_place (shown self.now) place ≡ true }
        ensures { let s = shown self.now in
            result ≡ list_all (may_be_awaited s (name_at s place)) children.now }
    {
        for child in children {
            if !self.may_be_awaited(place, *child) {
                return false;
            }
        }
        true
    }

    /// Await: the hand holds the node, and names different children that haven't begun, at least
    /// one.
    pub fn may_await(&self, hand: u32, place: Place, children: &NodeList) -> bool
        requires { IsReady self.now hand }
        ensures { result ≡ may_await (shown self.now) hand place children.now }
    {
        let children = children.as_slice();
        self.is_place(place)
            && self.may_leave_node(hand, place)
            && !children.is_empty()
            && are_different(children)
            && self.may_all_be_awaited(place, children)
    }

    /// Rest: the hand holds the node.
    pub fn may_rest(&self, hand: u32, place: Place) -> bool
        requires { IsReady self.now hand }
        ensures { result ≡ may_rest (shown self.now) hand place }
    {
        self.is_place(place) && self.may_leave_node(hand, place)
    }

    /// Take: the node rests, ready in a context that the hand serves, or parked.
    pub fn may_take(&self, hand: u32, place: Place) -> bool
        requires { IsReady self.now hand }
        ensures { result ≡ may_take (shown self.now) hand place }
    {
        self.is_place(place) && may_be_taken(self.control(place), hand)
    }

    /// Finish: the hand holds the node, whose callback isn't armed and doesn't run.
    pub fn may_finish(&self, hand: u32, place: Place) -> bool
        requires { IsReady self.now hand }
        ensures { result ≡ may_finish (shown self.now) hand place }
    {
        self.is_place(place)
            && self.may_leave_node(hand, place)
            && !matches!(
                self.phase(place),
                CallbackPhase::Armed | CallbackPhase::Running
            )
    }

    /// Report: the hand owes the child's report, and makes no scan of the parent's source.
    pub fn may_report(&self, hand: u32, place: Place) -> bool
        requires { IsReady self.now hand }
        ensures { result ≡ may_report (shown self.now) hand place }
    {
        if !self.is_place(place) || !self.owes_report(hand, place) {
            return false;
        }
        match self.parent(place.node) {
            None => false,
            Some(node) => !self.scans_at(
                hand,
                Place {
                    block: place.block,
                    node,
                },
            ),
        }
    }

    /// Release: the hand holds the finished root.
    pub fn may_release(&self, hand: u32, block: u32) -> bool
        requires { IsReady self.now hand }
        ensures { result ≡ may_release (shown self.now) hand block }
    {
        block < self.words.blocks() && self.holds_finished(hand, block)
    }
}
