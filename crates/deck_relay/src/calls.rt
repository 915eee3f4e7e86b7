//! The calls of a deck.
ghost use Rattle.std.specs.Prelude.{◌≡◌, ◌<◌, IfOk, IfErr, IfSome, IfNone, length};
ghost use Rattle.deck_relay.specs.Decks.{IsSameDeck};
ghost use Rattle.deck_relay.specs.Moves.{GivesShared, IsOwnFull, Pushes, HandsBack, Takes, FindsNone};

use crate::deck::Deck;
use crate::deques::{Gives as Joins, Takes as Leaves};
use crate::queues::{Fetches, Offers};
use crate::stealing::steal_round;
use life_rules::Name;
use sleepers::Sleeper;
use std::sync::Wait;

impl Deck {
    /// Its place in the relay, which is its sleeper's.
    pub fn place(&self) -> u32
        ensures { result ≡ self.now.place }
    {
        self.place
    }

    /// The sleeper of the deck's hand.
    pub fn sleeper(&self) -> &Sleeper
        ensures { result.now ≡ self.now.sleeper }
    {
        &self.sleeper
    }

    /// Gives each hand of the relay a token, so that it looks once more.
    pub fn wake_all(&self) {
        self.sleeper.wake_all();
    }

    /// Adds the name to the shared queue, and wakes a hand that sleeps. The name comes back only
    /// where the queue was full at a step of this call.
    pub fn offer<R: Wait>(&mut self, rt: &R, name: Name) -> Result<(), Name>
        ensures same { IsSameDeck self.old self.new }
        ensures offered { IfOk result (λ _. GivesShared name self.old self.new) }
        ensures back { IfErr result (HandsBack name self.old self.new) }
    {
        let queue = &self.queue.line;
        match queue.push_as::<Offers, R>(rt, &mut self.pass, name) {
            Ok(()) => {
                self.sleeper.wake_one();
                Ok(())
            }
            Err(back) => Err(back),
        }
    }

    /// Adds the name to the deck's own deque, and wakes nobody; or where the deque can't grow to
    /// the shared queue, as `offer` does. It goes on to the shared queue only where as many names
    /// had come into the deque as its newest ring has slots. The name comes back only where,
    /// besides, the shared queue was full at a step of this call.
    pub fn put<R: Wait>(&mut self, rt: &R, name: Name) -> Result<(), Name>
        ensures same { IsSameDeck self.old self.new }
        ensures pushed { IfOk result (λ _. Pushes name self.old self.new) }
        ensures back { IfErr result (HandsBack name self.old self.new) }
        ensures full { IfErr result (λ _. IsOwnFull self.old) }
    {
        match self.own.push_as::<Joins>(name) {
            Ok(()) => Ok(()),
            Err(back) => self.offer(rt, back),
        }
    }

    /// Adds the name as `put` does, and wakes a hand that sleeps.
    pub fn push<R: Wait>(&mut self, rt: &R, name: Name) -> Result<(), Name>
        ensures same { IsSameDeck self.old self.new }
        ensures pushed { IfOk result (λ _. Pushes name self.old self.new) }
        ensures back { IfErr result (HandsBack name self.old self.new) }
        ensures full { IfErr result (λ _. IsOwnFull self.old) }
    {
        self.put(rt, name)?;
        self.sleeper.wake_one();
        Ok(())
    }

    /// Takes a name from the deck's own deque, else from the shared queue, else by one round of
    /// steals. A steal takes the first name of another deque, and at the same step perhaps names
    /// behind it, at most seven. These move: they come in together at the back of the deck's own
    /// deque, in their order, and others may steal them there. None only where, each at a step of
    /// this call, its deque and the shared queue were read as empty, and each other deque was read
    /// as empty or its steal was lost. Then no name moved.
    pub fn take<R: Wait>(&mut self, rt: &R) -> Option<Name>
        ensures same { IsSameDeck self.old self.new }
        ensures taken { IfSome result (λ name. Takes name self.old self.new) }
        ensures none { IfNone result (FindsNone self.old self.new) }
    {
        match self.own.pop_as::<Leaves>() {
            Some(name) => return Some(name),
            None => {}
        }
        let queue = &self.queue.line;
        match queue.pop_as::<Fetches, R>(rt, &mut self.pass) {
            Some(name) => return Some(name),
            None => {}
        }
        steal_round(self.thefts.as_mut_slice(), &mut self.own, self.place)
    }
}
