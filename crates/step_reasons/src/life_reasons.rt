//! Why a hand may not take a step of an operation's life.
#![tactic(auto, using(crate::proofs::Passing::passed, crate::proofs::Passing::stopped))]

ghost use Rattle.std.specs.Prelude.{◌≡◌, ◌<◌, None, true};
ghost use Rattle.common_lemmas.specs.Lists.{are_different};
ghost use Rattle.exec_life.specs.StateLists.{machine};
ghost use Rattle.life_rules.specs.States.{is_place};
ghost use Rattle.life_rules.specs.Words.{may_be_taken};
ghost use Rattle.node_tree.specs.Tree.{parent_of};
ghost use Rattle.step_reasons.specs.LifeReasons.{stands, calls_back, block_is, claim_reason, begin_reason, leave_reason, child_reason, children_reason, await_reason, rest_reason, take_reason, finish_reason, parent_reason, report_reason, release_reason};

use crate::callback::callback_of;
use crate::fact::Fact;
use crate::reading::{Part, block_state, control_at, has_part, is_child, phase_at};
use crate::standing::standing_of;
use exec_life::State;
use life_rules::{BlockState, CallbackPhase, ControlWord, Place, SourceAt};

/// How far the node has come.
pub(crate) fn stands(state: &State, place: Place) -> Fact
    requires { is_place (machine state.now) place ≡ true }
    ensures { result ≡ stands (machine state.now) place }
{
    let standing = standing_of(state, place);
    Fact::Stands { place, standing }
}

/// What has become of the node's callback.
pub(crate) fn calls_back(state: &State, place: Place) -> Fact
    requires { is_place (machine state.now) place ≡ true }
    ensures { result ≡ calls_back (machine state.now) place }
{
    let callback = callback_of(state, place);
    Fact::CallbackIs { place, callback }
}

/// What the block is now.
pub(crate) fn block_is(state: &State, block: u32) -> Fact
    requires { block < (machine state.now).blocks }
    ensures { result ≡ block_is (machine state.now) block }
{
    let state = block_state(state, block);
    Fact::BlockIs { block, state }
}

/// Why the hand may not claim the block.
pub(crate) fn claim_reason(state: &State, block: u32) -> Option<Fact>
    ensures { result ≡ claim_reason (machine state.now) block }
{
    if block >= state.blocks() {
        return Some(Fact::NoBlock { block });
    }
    if !matches!(block_state(state, block), BlockState::Free) {
        return Some(block_is(state, block));
    }
    None
}

/// Why the hand may not begin the node.
pub(crate) fn begin_reason(state: &State, hand: u32, place: Place) -> Option<Fact>
    requires { hand < (machine state.now).hands }
    ensures { result ≡ begin_reason (machine state.now) hand place }
{
    if !state.has_place(place) {
        return Some(Fact::NoPlace { place });
    }
    if !has_part(state, Part::OwesStart, place, hand) {
        return Some(stands(state, place));
    }
    None
}

// Why the hand may not let the node go: it doesn't hold it, or scans its source.
fn leave_reason(state: &State, hand: u32, place: Place) -> Option<Fact>
    requires place { is_place (machine state.now) place ≡ true }
    requires hand { hand < (machine state.now).hands }
    ensures { result ≡ leave_reason (machine state.now) hand place None }
{
    if !has_part(state, Part::Holds, place, hand) {
        return Some(stands(state, place));
    }
    let source = SourceAt::At(place);
    if state.view(hand).scans(source) {
        return Some(Fact::Scans { hand, source });
    }
    None
}

// No node stands twice in the list.
fn are_different(nodes: &[u32]) -> bool
    ensures { result ≡ are_different nodes.now }
{
    for (index, node) in nodes.iter().enumerate() {
        if nodes[index + 1..].contains(node) {
            return false;
        }
    }
    true
}

// Why the node may not wait for this child.
fn child_reason(state: &State, place: Place, child: u32) -> Option<Fact>
    requires { is_place (machine state.now) place ≡ true }
    ensures { result ≡ child_reason (machine state.now) place child None }
{
    if !is_child(state, place.node, child) {
        return Some(Fact::NotChild { place, child });
    }
    let below = Place {
        block: place.block,
        node: child,
    };
    if !matches!(control_at(state, below), ControlWord::Idle) {
        return Some(stands(state, below));
    }
    None
}

// Why the node may not wait for one of these children.
fn children_reason(state: &State, place: Place, children: &[u32]) -> Option<Fact>
    requires { is_place (machine state.now) place ≡ true }
    ensures { result ≡ children_reason (machine state.now) place children.now }
{
    for child in children {
        if let Some(fact) = child_reason(state, place, *child) {
            return Some(fact);
        }
    }
    None
}

/// Why the hand may not let the node wait for these children.
pub(crate) fn await_reason(state: &State, hand: u32, place: Place, children: &[u32]) -> Option<Fact>
    requires { hand < (machine state.now).hands }
    ensures { result ≡ await_reason (machine state.now) hand place children.now }
{
    if !state.has_place(place) {
        return Some(Fact::NoPlace { place });
    }
    if let Some(fact) = leave_reason(state, hand, place) {
        return Some(fact);
    }
    if children.is_empty() {
        return Some(Fact::NamesNone);
    }
    if !are_different(children) {
        return Some(Fact::NamesTwice);
    }
    children_reason(state, place, children)
}

/// Why the hand may not lay the node aside.
pub(crate) fn rest_reason(state: &State, hand: u32, place: Place) -> Option<Fact>
    requires { hand < (machine state.now).hands }
    ensures { result ≡ rest_reason (machine state.now) hand place }
{
    if !state.has_place(place) {
        return Some(Fact::NoPlace { place });
    }
    leave_reason(state, hand, place)
}

// What is ready in the pool any hand may take, all else hand 0.
fn may_be_taken(word: ControlWord, hand: u32) -> bool
    ensures { result ≡ may_be_taken word hand }
{
    match word {
        ControlWord::ReadyPool => true,
        ControlWord::ReadyLoop | ControlWord::Parked => hand == 0,
        ControlWord::Idle | ControlWord::Busy(_) | ControlWord::Done => false,
    }
}

/// Why the hand may not take the node up again.
pub(crate) fn take_reason(state: &State, hand: u32, place: Place) -> Option<Fact>
    ensures { result ≡ take_reason (machine state.now) hand place }
{
    if !state.has_place(place) {
        return Some(Fact::NoPlace { place });
    }
    if !may_be_taken(control_at(state, place), hand) {
        return Some(stands(state, place));
    }
    None
}

/// Why the hand may not end the node.
pub(crate) fn finish_reason(state: &State, hand: u32, place: Place) -> Option<Fact>
    requires { hand < (machine state.now).hands }
    ensures { result ≡ finish_reason (machine state.now) hand place }
{
    if !state.has_place(place) {
        return Some(Fact::NoPlace { place });
    }
    if let Some(fact) = leave_reason(state, hand, place) {
        return Some(fact);
    }
    if matches!(
        phase_at(state, place),
        CallbackPhase::Armed | CallbackPhase::Running
    ) {
        return Some(calls_back(state, place));
    }
    None
}

// Why the hand may not report to this parent: it scans its source.
fn parent_reason(state: &State, hand: u32, place: Place) -> Option<Fact>
    requires place { is_place (machine state.now) place ≡ true }
    requires hand { hand < (machine state.now).hands }
    ensures { let s = machine state.now in
        result ≡ parent_reason s hand place (parent_of s.tree place.node) }
{
    let _words = state.words();
    match state.tree().node(place.node).parent {
        None => Some(stands(state, place)),
        Some(node) => {
            let block = place.block;
            let source = SourceAt::At(Place { block, node });
            if state.view(hand).scans(source) {
                return Some(Fact::Scans { hand, source });
            }
            None
        }
    }
}

/// Why the hand may not report the end of the node.
pub(crate) fn report_reason(state: &State, hand: u32, place: Place) -> Option<Fact>
    requires { hand < (machine state.now).hands }
    ensures { result ≡ report_reason (machine state.now) hand place }
{
    if !state.has_place(place) {
        return Some(Fact::NoPlace { place });
    }
    if !has_part(state, Part::OwesReport, place, hand) {
        return Some(stands(state, place));
    }
    parent_reason(state, hand, place)
}

/// Why the hand may not give the block back.
pub(crate) fn release_reason(state: &State, hand: u32, block: u32) -> Option<Fact>
    requires { hand < (machine state.now).hands }
    ensures { result ≡ release_reason (machine state.now) hand block }
{
    if block >= state.blocks() {
        return Some(Fact::NoBlock { block });
    }
    let root = Place {
        block,
        node: state.tree().size() - 1,
    };
    if !has_part(state, Part::HoldsFinished, root, hand) {
        return Some(stands(state, root));
    }
    None
}
