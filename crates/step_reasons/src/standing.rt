//! How far a node has come, and who has it.
ghost use Rattle.std.specs.Prelude.{◌≡◌, ◌<◌, true};
ghost use Rattle.exec_life.specs.StateLists.{machine};
ghost use Rattle.life_rules.specs.States.{is_place};
ghost use Rattle.step_reasons.specs.Standings.{standing_of, idle_standing, busy_standing, done_standing};

use crate::reading::{Part, block_state, control_at, first_hand};
use exec_life::State;
use life_rules::{BlockState, ControlWord, Place};

/// How far a node has come, and who has it.
#[derive(Clone, Copy, PartialEq, Eq)]
pub enum Standing {
    /// No operation lives in its block, which is free.
    InFreeBlock,
    /// Its block isn't given again.
    InRetiredBlock,
    /// It hasn't begun, and no hand owes its start.
    NotAwaited,
    /// It hasn't begun, and the hand owes its start.
    StartOwed { hand: u32 },
    /// The hand holds it.
    Held { hand: u32 },
    /// It waits for so many children.
    Waits { children: u32 },
    /// It rests in the loop.
    InLoop,
    /// It rests in the pool.
    InPool,
    /// It is parked.
    Parked,
    /// It is done, and the hand owes its report.
    ReportOwed { hand: u32 },
    /// It is done, and its report was made.
    Reported,
    /// It is the root and done, and the hand holds it.
    HeldFinished { hand: u32 },
}

/// How far the node has come, and who has it.
pub(crate) fn standing_of(state: &State, place: Place) -> Standing
    requires { is_place (machine state.now) place ≡ true }
    ensures { result ≡ standing_of (machine state.now) place }
{
    match block_state(state, place.block) {
        BlockState::Free => Standing::InFreeBlock,
        BlockState::Retired => Standing::InRetiredBlock,
        BlockState::Open => match control_at(state, place) {
            ControlWord::Idle => idle_standing(state, place),
            ControlWord::Busy(children) => busy_standing(state, place, children),
            ControlWord::ReadyLoop => Standing::InLoop,
            ControlWord::ReadyPool => Standing::InPool,
            ControlWord::Parked => Standing::Parked,
            ControlWord::Done => done_standing(state, place),
        },
    }
}

/// That of a node that hasn't begun.
fn idle_standing(state: &State, place: Place) -> Standing
    requires { is_place (machine state.now) place ≡ true }
    ensures { result ≡ idle_standing (machine state.now) place }
{
    let hand = first_hand(state, Part::OwesStart, place);
    if hand < state.hands() {
        Standing::StartOwed { hand }
    } else {
        Standing::NotAwaited
    }
}

/// That of a node that waits for so many children.
fn busy_standing(state: &State, place: Place, children: u32) -> Standing
    requires { is_place (machine state.now) place ≡ true }
    ensures { result ≡ busy_standing (machine state.now) place children }
{
    if children == 0 {
        let hand = first_hand(state, Part::Holds, place);
        Standing::Held { hand }
    } else {
        Standing::Waits { children }
    }
}

/// That of a node that is done.
fn done_standing(state: &State, place: Place) -> Standing
    requires { is_place (machine state.now) place ≡ true }
    ensures { result ≡ done_standing (machine state.now) place }
{
    let size = state.tree().size();
    if place.node + 1 == size {
        let hand = first_hand(state, Part::HoldsFinished, place);
        return Standing::HeldFinished { hand };
    }
    let hand = first_hand(state, Part::OwesReport, place);
    if hand < state.hands() {
        Standing::ReportOwed { hand }
    } else {
        Standing::Reported
    }
}
