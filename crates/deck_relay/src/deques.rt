//! The deques of the decks, and their rule.

use crate::tokens::Tokens;
use crossbeam_deque::protocol::{Lesson, Outcome, Protocol};
use crossbeam_deque::{Stealer, Worker};
use life_rules::Name;
use std::alloc::Global;

/// The rule of a deque: what was given is what was taken and what it holds.
pub struct Even;

impl Protocol<Name, Tokens> for Even {
    ghost use Rattle.deck_relay.specs.Rule.{Balanced, at_first, spent};

    ghost holds = { Balanced };

    ghost first = { at_first };

    ghost guest = { spent };
}

/// Names joined the deque.
pub struct Gives;

impl Outcome<Name, Tokens> for Gives {
    ghost use Rattle.std.specs.Prelude.{◌≡◌};
    ghost use Rattle.deck_relay.specs.Rule.{giving};

    ghost then = { λ v names w. w ≡ giving v names };
}

/// Names left the deque, or it was empty.
pub struct Takes;

impl Outcome<Name, Tokens> for Takes {
    ghost use Rattle.std.specs.Prelude.{◌≡◌, []};
    ghost use Rattle.deck_relay.specs.Rule.{taking, Stood};

    ghost then = { λ v names w. w ≡ taking v names };

    ghost empty = { λ v. Stood v [] };
}

/// All that was given and taken is known.
pub struct Total;

impl Lesson<Name, Tokens> for Total {
    ghost use Rattle.deck_relay.specs.Rule.{Tells};

    ghost fact = { Tells };
}

pub(crate) type Owner = Worker<Name, Global, Tokens, Even>;

pub(crate) type Thief = Stealer<Name, Global, Tokens, Even>;
