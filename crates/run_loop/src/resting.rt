//! How a loop that finds nothing to do sleeps, where its hand has a deck.
ghost use Rattle.std.specs.Prelude.{◌≡◌, ◌==◌, not, is_some, vec_len};
ghost use Rattle.run_loop.specs.Loops.{deck_of};

use crate::looped::Loop;
use deck_relay::Sleeper;

impl Loop {
    /// Whether its hand has a deck. Without one it doesn't sleep: nobody would wake it.
    pub fn has_deck(&self) -> bool
        ensures { result ≡ is_some (deck_of self.now) }
    {
        self.names.deck.is_some()
    }

    /// Whether the plan has delays. Then each poll is a turn of them, and a loop that sleeps would
    /// let none of them come due.
    pub fn has_delays(&self) -> bool
        ensures { result ≡ not (vec_len self.now.delay_nodes == 0) }
    {
        !self.delay_nodes.is_empty()
    }

    /// The sleeper of its hand, where that has a deck.
    pub fn sleeper(&self) -> Option<&Sleeper>
        ensures { is_some result ≡ is_some (deck_of self.now) }
    {
        match &self.names.deck {
            None => None,
            Some(deck) => Some(deck.sleeper()),
        }
    }

    /// Gives each hand of the pool a token, so that it looks once more.
    pub fn wake_all(&self) {
        if let Some(deck) = &self.names.deck {
            deck.wake_all();
        }
    }
}
