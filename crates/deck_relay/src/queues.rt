//! The queue that the decks share, and its rule.
ghost use Rattle.std.specs.Prelude.{◌≡◌};
ghost use Rattle.crossbeam_queue.specs.Passes.{ruled_capacity};

use crate::tokens::Tokens;
use crossbeam_queue::RuledArrayQueue;
use crossbeam_queue::protocol::{Lesson, Outcome, Protocol};
use life_rules::Name;

/// How many names the shared queue has room for.
pub const ROOM: usize = 4096;

/// The rule of the queue: what was given is what was taken and what it holds.
pub struct EvenQueue;

impl Protocol<Name, Tokens> for EvenQueue {
    ghost use Rattle.deck_relay.specs.Rule.{Balanced, at_first};

    ghost holds = { Balanced };

    ghost first = { at_first };
}

/// A name came in, or there was no room.
pub struct Offers;

impl Outcome<Name, Tokens> for Offers {
    ghost use Rattle.std.specs.Prelude.{◌≡◌, [], ◌∷◌};
    ghost use Rattle.deck_relay.specs.Rule.{giving};

    ghost then = { λ v name w. w ≡ giving v (name ∷ []) };
}

impl Lesson<Name, Tokens> for Offers {
    ghost use Rattle.deck_relay.specs.Rule.{Stood};

    ghost fact = { Stood };
}

/// A name went out, or there was none.
pub struct Fetches;

impl Outcome<Name, Tokens> for Fetches {
    ghost use Rattle.std.specs.Prelude.{◌≡◌, [], ◌∷◌};
    ghost use Rattle.deck_relay.specs.Rule.{taking};

    ghost then = { λ v name w. w ≡ taking v (name ∷ []) };
}

impl Lesson<Name, Tokens> for Fetches {
    ghost use Rattle.deck_relay.specs.Rule.{Stood};

    ghost fact = { Stood };
}

/// All that was given and taken is known.
pub struct TotalQueue;

impl Lesson<Name, Tokens> for TotalQueue {
    ghost use Rattle.deck_relay.specs.Rule.{Tells};

    ghost fact = { Tells };
}

pub(crate) type Line = RuledArrayQueue<Name, Tokens, EvenQueue>;

/// The queue that the decks share.
#[derive(Drop)]
pub(crate) struct Shared {
    pub(crate) line: Line,
    ghost sized: { ruled_capacity line ≡ 4096 },
}
