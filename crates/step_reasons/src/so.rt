//! Whether what a reason says is so in a state.
ghost use Rattle.std.specs.Prelude.{◌↔◌, ◌<◌, IsTrue, true, ◌≡◌};
ghost use Rattle.exec_life.specs.StateLists.{machine};
ghost use Rattle.step_reasons.specs.So.{IsSo};

use crate::callback::callback_of;
use crate::fact::Fact;
use crate::reading::{
    Part, block_state, has_part, is_child, is_source, nearest_source, next_place, scans,
};
use crate::standing::standing_of;
use exec_life::State;
use life_rules::Event;

/// Whether what the reason says is so in the state. It takes no memory.
pub fn is_so(state: &State, fact: &Fact) -> bool
    ensures { IsTrue result ↔ IsSo (machine state.now) fact.now }
{
    match *fact {
        Fact::NoHand { hand } => hand >= state.hands(),
        Fact::NoBlock { block } => block >= state.blocks(),
        Fact::NoPlace { place } => !state.has_place(place),
        Fact::NoSource { source } => !is_source(state, source),
        Fact::BlockIs { block, state: is } => {
            block < state.blocks() && block_state(state, block) == is
        }
        Fact::Stands { place, standing } => {
            state.has_place(place) && standing_of(state, place) == standing
        }
        Fact::CallbackIs { place, callback } => {
            state.has_place(place) && callback_of(state, place) == callback
        }
        Fact::HearsFrom { place, nearest } => {
            state.has_place(place) && nearest_source(state, place) == nearest
        }
        Fact::NotChild { place, child } => {
            state.has_place(place) && !is_child(state, place.node, child)
        }
        Fact::NamesNone | Fact::NamesTwice => true,
        Fact::ScopeIs { word } => state.words().scope() == word,
        Fact::Scans { hand, source } => hand < state.hands() && scans(state, hand, source),
        Fact::ScansNot { hand, source } => hand < state.hands() && !scans(state, hand, source),
        Fact::GoesOnWith { hand, source, next } => {
            hand < state.hands()
                && scans(state, hand, source)
                && next_place(state, hand, source) == next
        }
        Fact::NothingToLookAfter {
            hand,
            source,
            place,
        } => {
            let after = Some(place);
            hand < state.hands() && !state.allows(hand, &Event::Look { source, after })
        }
        Fact::NothingToRequest {
            hand,
            source,
            failure,
        } => hand < state.hands() && !state.allows(hand, &Event::Request { source, failure }),
        Fact::RunsNot { hand, place } => {
            hand < state.hands()
                && state.has_place(place)
                && !has_part(state, Part::Runs, place, hand)
        }
        Fact::InTheMaking { hand } => {
            hand < state.hands() && state.allows(hand, &Event::MarkUsed)
        }
        Fact::BeingRefused { hand } => {
            hand < state.hands()
                && !state.allows(hand, &Event::Enter)
                && !state.allows(hand, &Event::MarkUsed)
        }
        Fact::NoneInTheMaking { hand } => {
            hand < state.hands() && !state.allows(hand, &Event::MarkUsed)
        }
        Fact::NoneToLeave { hand } => hand < state.hands() && !state.allows(hand, &Event::Leave),
    }
}
