//! What is read of a state.
ghost use Rattle.std.specs.Prelude.{◌≡◌, ◌<◌, true, nat_lt};
ghost use Rattle.exec_life.specs.StateLists.{machine};
ghost use Rattle.life_rules.specs.Scans.{is_nearest, is_next_in};
ghost use Rattle.life_rules.specs.States.{is_place, name_at, control_at, phase_at};
ghost use Rattle.life_rules.specs.StopSteps.{source_of, is_source};
ghost use Rattle.node_tree.specs.Tree.{is_child};
ghost use Rattle.step_reasons.specs.Scanning.{at_is, nearest_source, is_known, scans, next_node, next_place};
ghost use Rattle.step_reasons.specs.Standings.{has_part, first_hand};

use exec_life::{NearestSource, State};
use life_rules::{BlockState, CallbackPhase, ControlWord, Event, Place, SourceAt};

/// In which way a hand has a node.
#[derive(Clone, Copy)]
pub(crate) enum Part {
    Holds,
    OwesStart,
    OwesReport,
    HoldsFinished,
    Runs,
}

/// What the block's word says.
pub(crate) fn block_state(state: &State, block: u32) -> BlockState
    requires { block < (machine state.now).blocks }
    ensures { let s = machine state.now in result ≡ (s.block block).state }
{
    state.words().block(block).state
}

/// The node's control word.
pub(crate) fn control_at(state: &State, place: Place) -> ControlWord
    requires { is_place (machine state.now) place ≡ true }
    ensures { let s = machine state.now in result ≡ control_at s (name_at s place) }
{
    state.words().control(place)
}

/// The node's callback word.
pub(crate) fn phase_at(state: &State, place: Place) -> CallbackPhase
    requires { is_place (machine state.now) place ≡ true }
    ensures { let s = machine state.now in result ≡ phase_at s (name_at s place) }
{
    state.words().callback(place)
}

/// Whether the hand has the node in this way.
pub(crate) fn has_part(state: &State, part: Part, place: Place, hand: u32) -> bool
    requires place { is_place (machine state.now) place ≡ true }
    requires hand { hand < (machine state.now).hands }
    ensures { result ≡ has_part (machine state.now) part place hand }
{
    let view = state.view(hand);
    match part {
        Part::Holds => view.holds(place),
        Part::OwesStart => view.owes_start(place),
        Part::OwesReport => view.owes_report(place),
        Part::HoldsFinished => view.holds_finished(place.block),
        Part::Runs => view.runs(place),
    }
}

/// The first hand that has the node in this way, the number of hands where none does.
pub(crate) fn first_hand(state: &State, part: Part, place: Place) -> u32
    requires { is_place (machine state.now) place ≡ true }
    ensures { result ≡ first_hand (machine state.now) part place }
{
    for hand in 0..state.hands() {
        if has_part(state, part, place, hand) {
            return hand;
        }
    }
    state.hands()
}

/// Whether the second node is a child of the first.
pub(crate) fn is_child(state: &State, node: u32, child: u32) -> bool
    ensures { let s = machine state.now in result ≡ is_child s.tree node child }
{
    child < state.tree().size() && state.tree().node(child).parent == Some(node)
}

/// Whether there is such a source: the scope's, or that of a node that has one.
pub(crate) fn is_source(state: &State, source: SourceAt) -> bool
    ensures { result ≡ is_source (machine state.now) source }
{
    match source {
        SourceAt::Scope => true,
        SourceAt::At(place) => state.has_place(place) && state.tree().node(place.node).source,
    }
}

/// The source on which a callback of the node is registered; none where no request reaches it.
pub(crate) fn nearest_source(state: &State, place: Place) -> Option<SourceAt>
    requires { is_place (machine state.now) place ≡ true }
    ensures { result ≡ nearest_source (machine state.now) place }
{
    match state.tree().nearest(place.node) {
        NearestSource::Scope => Some(SourceAt::Scope),
        NearestSource::Node(node) => Some(SourceAt::At(Place {
            block: place.block,
            node,
        })),
        NearestSource::Nowhere => None,
    }
}

/// Whether the place of the source is there.
fn is_known(state: &State, source: SourceAt) -> bool
    ensures { result ≡ is_known (machine state.now) source }
{
    match source {
        SourceAt::Scope => true,
        SourceAt::At(place) => state.has_place(place),
    }
}

/// Whether the hand makes a scan of the source.
pub(crate) fn scans(state: &State, hand: u32, source: SourceAt) -> bool
    requires { hand < (machine state.now).hands }
    ensures { result ≡ scans (machine state.now) hand source }
{
    is_known(state, source) && state.view(hand).scans(source)
}

// Whether the source is the one that is named.
fn is_named(source: SourceAt, named: Option<SourceAt>) -> bool
    ensures { result ≡ at_is source named }
{
    match named {
        None => false,
        Some(SourceAt::Scope) => match source {
            SourceAt::Scope => true,
            SourceAt::At(_) => false,
        },
        Some(SourceAt::At(place)) => match source {
            SourceAt::Scope => false,
            SourceAt::At(at) => at.block == place.block && at.node == place.node,
        },
    }
}

/// Whether a callback of the node is registered on this source.
pub(crate) fn is_nearest(state: &State, place: Place, source: SourceAt) -> bool
    requires { is_place (machine state.now) place ≡ true }
    ensures { let s = machine state.now in
        result ≡ is_nearest s (source_of s source) (name_at s place) }
{
    is_named(source, nearest_source(state, place))
}

/// Whether the place is the next of the hand's scan of the source. Where its callback runs in that
/// scan the step `run` isn't allowed any more.
fn is_next_in(state: &State, hand: u32, source: SourceAt, place: Place) -> bool
    requires place { is_place (machine state.now) place ≡ true }
    requires hand { hand < (machine state.now).hands }
    ensures { let s = machine state.now in
        result ≡ is_next_in s (s.view hand) (source_of s source) (name_at s place) }
{
    let _words = state.words();
    if has_part(state, Part::Runs, place, hand) {
        return is_nearest(state, place, source);
    }
    state.allows(hand, &Event::Run { source, place })
}

// The node of the next place of the hand's scan in the block, the number of nodes where there is
// none.
fn next_node(state: &State, hand: u32, source: SourceAt, block: u32) -> u32
    requires hand { hand < (machine state.now).hands }
    requires block { block < (machine state.now).blocks }
    ensures { result ≡ next_node (machine state.now) hand source block }
{
    let size = state.tree().size();
    for node in 0..size {
        if is_next_in(state, hand, source, Place { block, node }) {
            return node;
        }
    }
    size
}

/// The next place of the hand's scan of the source; none where it makes none, or has passed all.
pub(crate) fn next_place(state: &State, hand: u32, source: SourceAt) -> Option<Place>
    requires { hand < (machine state.now).hands }
    ensures { result ≡ next_place (machine state.now) hand source }
{
    let size = state.tree().size();
    for block in 0..state.blocks() {
        let node = next_node(state, hand, source, block);
        if node < size {
            return Some(Place { block, node });
        }
    }
    None
}
