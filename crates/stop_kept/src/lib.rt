//! What is sound stays sound at each step of a stop source or a stop callback.
//!
//! It stands on `life_rules`, which has the steps and what `Sound` says. It keeps one promise: from
//! a sound state no such step leads to one that isn't sound. It has no code: the law is the
//! contract of `stop_keeps_sound`.
#![tactic(auto)]

ghost use Rattle.std.specs.Prelude.{ℕ, Bool, Option};
ghost use Rattle.life_rules.specs.Keeping.{KeepsSound};

use life_rules::{Event, Place, SourceAt};

/// The law: each step of a stop source ([stopsource]) or of a callback registered on one
/// ([stopcallback]) keeps what is sound.
pub fn stop_keeps_sound()
    ensures arm { (place : Place) → KeepsSound (Event.Arm place) }
    ensures look { (at : SourceAt) (after : Option Place) → KeepsSound (Event.Look at after) }
    ensures request { (at : SourceAt) (failure : Bool) → KeepsSound (Event.Request at failure) }
    ensures run { (at : SourceAt) (place : Place) → KeepsSound (Event.Run at place) }
    ensures end_run { (place : Place) → KeepsSound (Event.EndRun place) }
    ensures withdraw { (place : Place) → KeepsSound (Event.Withdraw place) }
    ensures withdraw_own { (place : Place) → KeepsSound (Event.WithdrawOwn place) }
    ensures seal_scan { (at : SourceAt) → KeepsSound (Event.SealScan at) }
    ensures skip { (block : ℕ) → KeepsSound (Event.Skip block) }
{}
