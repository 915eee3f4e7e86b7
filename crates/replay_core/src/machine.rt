//! The machine of a trace: how it begins, and how it goes on.
ghost use Rattle.std.specs.Prelude.{◌≡◌, IfOk, OnOk};
ghost use Rattle.exec_life.specs.Reading.{SameTable};
ghost use Rattle.exec_life.specs.StateLists.{machine};
ghost use Rattle.life_rules.specs.Steps.{is_step, moved};
ghost use Rattle.replay_core.specs.Traces.{first_state, move_of};

use exec_life::{State, opening};
use std::alloc::{AllocError, Global};
use trace_text::{Entry, Opening, parts_of};

/// The state with which a trace begins.
pub fn first_state(alloc: Global, setup: &Opening) -> Result<State, AllocError>
    ensures { IfOk result (λ s. machine s ≡ first_state setup.now) }
{
    opening(
        alloc,
        setup.tree(),
        setup.blocks(),
        setup.hands(),
        setup.kind(),
        setup.most(),
    )
}

/// The hand of an entry does what the entry says, where that is a step; else nothing changes.
pub fn advance(alloc: Global, state: &mut State, entry: &Entry) -> Result<bool, AllocError>
    ensures exact { IfOk result
        (λ taken. taken ≡ is_step (machine state.old) (move_of entry.now)) }
    ensures after { OnOk result
        (machine state.new ≡ moved (machine state.old) (move_of entry.now)) }
    ensures table { OnOk result (SameTable (machine state.old) (machine state.new)) }
{
    if entry.hand >= state.hands() {
        return Ok(false);
    }
    let event = parts_of(&entry.event).event(alloc)?;
    Ok(state.step(entry.hand, event))
}
