//! What a pass of a deque or of the shared queue knows.

use crossbeam_deque::protocol::{Join, Split};
use life_rules::Name;
use std::collections::LinkedList;

/// What a pass gave and took, and its parts of the right to know the whole. No value of it is made.
pub struct Tokens {
    pub share: u32,
    pub given: LinkedList<Name>,
    pub taken: LinkedList<Name>,
}

/// A pass with one share is made of another; a pass comes back to another.
pub struct Cut;

impl Split<Tokens> for Cut {
    ghost use Rattle.deck_relay.specs.Rule.{without_one, with_one};

    ghost left = { without_one };

    ghost right = { λ v. with_one };
}

impl Join<Tokens> for Cut {
    ghost use Rattle.deck_relay.specs.Rule.{both, spent};

    ghost both = { both };

    ghost spent = { spent };
}
