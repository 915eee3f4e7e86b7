//! What has become of a node's stop callback.
ghost use Rattle.std.specs.Prelude.{◌≡◌, true};
ghost use Rattle.exec_life.specs.StateLists.{machine};
ghost use Rattle.life_rules.specs.States.{is_place};
ghost use Rattle.step_reasons.specs.Standings.{callback_of};

use crate::reading::{Part, first_hand, phase_at};
use exec_life::State;
use life_rules::{CallbackPhase, Place};

/// What has become of a node's stop callback.
#[derive(Clone, Copy, PartialEq, Eq)]
pub enum Callback {
    /// None was registered.
    Never,
    /// It is registered.
    Armed,
    /// The hand runs it.
    Runs { hand: u32 },
    /// It has run.
    Ran,
    /// It was removed.
    Removed,
}

/// What has become of the node's callback.
pub(crate) fn callback_of(state: &State, place: Place) -> Callback
    requires { is_place (machine state.now) place ≡ true }
    ensures { result ≡ callback_of (machine state.now) place }
{
    match phase_at(state, place) {
        CallbackPhase::Never => Callback::Never,
        CallbackPhase::Armed => Callback::Armed,
        CallbackPhase::Running => {
            let hand = first_hand(state, Part::Runs, place);
            Callback::Runs { hand }
        }
        CallbackPhase::Ran => Callback::Ran,
        CallbackPhase::Removed => Callback::Removed,
    }
}
