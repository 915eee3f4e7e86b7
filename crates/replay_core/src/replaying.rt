//! The trace of a schedule.
ghost use Rattle.std.specs.Prelude.{◌≡◌, ◌<◌, length, IfOk, OnOk};
ghost use Rattle.exec_life.specs.Reading.{SameTable};
ghost use Rattle.exec_life.specs.StateLists.{machine};
ghost use Rattle.replay_core.specs.Replays.{trace_of, chosen, Follows};
ghost use Rattle.replay_core.specs.Traces.{AreTaken};

use crate::candidates::Listing;
use crate::grounds::{all_places, all_sources};
use crate::machine::{advance, first_state};
use exec_life::State;
use life_rules::Event;
use std::alloc::{AllocError, Global};
use trace_text::{Choice, Entry, Schedule, Trace};

/// The trace of a schedule: each of its entries takes a step of its hand, of those that the hand
/// may take, and none where there are none. It fails only for want of memory.
///
/// The steps of a hand are listed kind by kind, as the events are declared, and within a kind by
/// rising block and then node, the scope last. An await names all children that haven't begun; a
/// rest is in the loop, the pool or parked; a look comes after an arming; a plain request comes
/// before one for a failure; a seal expects the present word.
pub fn replay(alloc: Global, schedule: &Schedule) -> Result<Trace, AllocError>
    ensures rule { IfOk result (λ trace. trace ≡ trace_of schedule.now) }
    ensures taken { IfOk result (λ trace. AreTaken trace (length trace.entries)) }
{
    let mut state = first_state(alloc, schedule.opening())?;
    let mut entries = Vec::new(alloc);
    for choice in schedule.entries() {
        follow(alloc, &mut state, *choice, &mut entries)?;
    }
    Ok(Trace::new(schedule.opening().clone()?, entries))
}

// The choice's hand takes the step that is chosen, which is then an entry.
fn follow(
    alloc: Global,
    state: &mut State,
    choice: Choice,
    entries: &mut Vec<Entry>,
) -> Result<(), AllocError>
    requires { choice.hand < (machine state.old).hands }
    ensures entry { OnOk result (Follows (machine state.old) (machine state.new) choice
        entries.old.items entries.new.items) }
    ensures table { OnOk result (SameTable (machine state.old) (machine state.new)) }
{
    let Some(event) = choose(alloc, state, choice)? else {
        return Ok(());
    };
    let entry = Entry {
        hand: choice.hand,
        event,
    };
    advance(alloc, state, &entry)?;
    entries.push(entry)?;
    Ok(())
}

// The step that a choice takes.
fn choose(alloc: Global, state: &State, choice: Choice) -> Result<Option<Event>, AllocError>
    requires { choice.hand < (machine state.now).hands }
    ensures { IfOk result (λ event. event ≡ chosen (machine state.now) choice) }
{
    let places = all_places(alloc, state)?;
    let sources = all_sources(alloc, &places)?;
    let listing = Listing {
        state,
        hand: choice.hand,
        places: &places,
        sources: &sources,
    };
    let mut found = listing.candidates(alloc)?;
    if found.is_empty() {
        return Ok(None);
    }
    let number = choice.choice as usize % found.len();
    Ok(Some(found.swap_remove(number)))
}
