//! What is sound stays sound at each step of the counting scope, and when a parked node is roused.
//!
//! It stands on `life_rules`, which has the steps and what `Sound` says. It keeps one promise: from
//! a sound state none of these steps leads to one that isn't sound.
#![tactic(auto)]

ghost use Rattle.life_rules.specs.Keeping.{KeepsSound};

use life_rules::{Event, Place, ScopeWord};

/// The law: each step of the scope's word keeps what is sound (P3149, [exec.scope]), and so does
/// rousing.
pub fn scope_keeps_sound()
    ensures rouse { (place : Place) → KeepsSound (Event.Rouse place) }
    ensures enter { KeepsSound Event.Enter }
    ensures mark_used { KeepsSound Event.MarkUsed }
    ensures leave { KeepsSound Event.Leave }
    ensures close { KeepsSound Event.Close }
    ensures join { KeepsSound Event.Join }
    ensures seal { (expected : ScopeWord) → KeepsSound (Event.Seal expected) }
{}
