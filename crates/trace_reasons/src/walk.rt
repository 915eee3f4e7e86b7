//! The states along a trace.
ghost use Rattle.std.specs.Prelude.{◌≡◌, ◌≤◌, length, IfOk, OnOk};
ghost use Rattle.exec_life.specs.StateLists.{machine};
ghost use Rattle.life_rules.specs.Steps.{moved};
ghost use Rattle.replay_core.specs.Traces.{first_state, move_of, state_at};

use exec_life::{State, opening};
use replay_core::Trace;
use std::alloc::{AllocError, Global};
use trace_text::{Entry, Opening, parts_of};

/// The state with which a trace begins.
pub fn first_state(alloc: Global, setup: &Opening) -> Result<State, AllocError>
    ensures { IfOk result (λ s. machine s ≡ first_state setup.now) }
{
    opening(
        alloc,
        setup.tree(),
        setup.blocks(),
        setup.hands(),
        setup.kind(),
        setup.most(),
    )
}

/// The hand of an entry does what the entry says, where that is a step; else nothing changes.
pub fn advance(alloc: Global, state: &mut State, entry: &Entry) -> Result<(), AllocError>
    ensures { OnOk result
        (machine state.new ≡ moved (machine state.old) (move_of entry.now)) }
{
    if entry.hand >= state.hands() {
        return Ok(());
    }
    let event = parts_of(&entry.event).event(alloc)?;
    state.step(entry.hand, event);
    Ok(())
}

/// The state after the first entries of a trace, so many.
pub fn state_after(alloc: Global, trace: &Trace, count: u32) -> Result<State, AllocError>
    requires { count ≤ length trace.now.entries }
    ensures { IfOk result (λ s. machine s ≡ state_at trace.now count) }
{
    let mut state = first_state(alloc, trace.opening())?;
    let entries = trace.entries();
    for index in 0..count {
        advance(alloc, &mut state, &entries[index as usize])?;
    }
    Ok(state)
}
