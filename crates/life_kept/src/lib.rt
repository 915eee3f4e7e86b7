//! The laws of an operation's life: what is sound stays sound at each of its steps, and a block is
//! given back only when nothing touches it any more.
//!
//! It stands on life_rules, which has the steps and says what `Sound` and `Quiet` are. Its
//! functions do nothing: their contracts are the laws, over every state.
#![tactic(auto)]

ghost use Rattle.std.specs.Prelude.{ℕ, List};
ghost use Rattle.life_rules.specs.Keeping.{KeepsSound};
ghost use Rattle.life_rules.specs.Quiet.{IsQuietAtRelease};

use life_rules::{Event, Place, Resting};

/// From a sound state each step of an operation's life leads to a sound state: no operation state
/// is begun, held or reported twice, and a parent waits for exactly the children that it started
/// ([exec.opstate], [async.ops]).
pub fn life_keeps_sound()
    ensures claim { (block : ℕ) → KeepsSound (Event.Claim block) }
    ensures begin { (place : Place) → KeepsSound (Event.Begin place) }
    ensures awaits { (place : Place) (nodes : List ℕ) → KeepsSound (Event.Await place nodes) }
    ensures rest { (place : Place) (to : Resting) → KeepsSound (Event.Rest place to) }
    ensures take { (place : Place) → KeepsSound (Event.Take place) }
    ensures finish { (place : Place) → KeepsSound (Event.Finish place) }
    ensures report { (place : Place) → KeepsSound (Event.Report place) }
    ensures release { (block : ℕ) → KeepsSound (Event.Release block) }
{}

/// Once the root is done, no node of its block is held, no start or report is owed, no callback is
/// armed or runs, and no scan of their sources is made: the block may be given back ([async.ops]).
pub fn release_is_quiet()
    ensures { IsQuietAtRelease }
{}
