//! What follows for counting scopes (P3149, [exec.counting.scopes]).
ghost use Rattle.table_laws.specs.Laws.{JoinedIsEmpty};
ghost use Rattle.table_laws.specs.Lasting.{BitsStay, SealedIsEmpty, MadeIsUsed};

use table_rules::Cargo;

/// In a joined scope no hand has an association but such as is being refused: for good, once a seal
/// set the joined bit.
pub fn joined_scopes_are_empty<P: Cargo>()
    ensures joined { JoinedIsEmpty P.Cargo }
    ensures sealed { SealedIsEmpty P.Cargo }
{}

/// No bit of the scope's word is ever cleared: each that a step of a hand read or left there is set
/// as long as the hand lists the step. So a scope in which an association was made is never unused
/// again.
pub fn scope_bits_stay<P: Cargo>()
    ensures stay { BitsStay P.Cargo }
    ensures used { MadeIsUsed P.Cargo }
{}
