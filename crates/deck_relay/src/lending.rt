//! What a deck does with its deque's shares and its thefts, from its making to its end.
ghost use Rattle.std.specs.Prelude.{◌≡◌, ◌<◌, [], IfOk, IfSome, IfNone};
ghost use Rattle.std.specs.Arc.{arc_value};
ghost use Rattle.crossbeam_queue.specs.Passes.{view, IsPassOf};
ghost use Rattle.deck_relay.specs.Decks.{theft_deque, own_view, own_deque};
ghost use Rattle.deck_relay.specs.Lending.{Lends, GetsBack, HasMore, Counts, IsBare};

use crate::deck::Deck;
use crate::deques::{Owner, Total};
use crate::queues::Shared;
use crate::thefts::Theft;
use crate::tokens::{Cut, Tokens};
use crossbeam_queue::Pass;
use life_rules::Name;
use sleepers::Sleeper;
use std::alloc::{AllocError, Global};
use std::sync::Arc;

/// How many slots a deque begins with: it may grow while a thief stands still.
const FIRST_ROOM: usize = 64;

impl Deck {
    // A deck with an empty deque and no theft.
    pub(crate) fn bare(
        alloc: Global,
        queue: &Arc<Shared, Global>,
        pass: Pass<Name, Tokens>,
        sleeper: Sleeper,
    ) -> Result<Deck, AllocError>
        requires seated { IsPassOf (arc_value queue.now).line pass }
        requires queued { 0 < (view pass).share }
        ensures { IfOk result (IsBare pass sleeper) }
    {
        Ok(Deck {
            place: sleeper.place(),
            own: Owner::fifo_as(alloc, FIRST_ROOM)?,
            thefts: Vec::new(alloc),
            queue: Arc::try_clone(queue)?,
            pass,
            sleeper,
        })
    }

    // A theft of the deck's deque, to which a share goes.
    pub(crate) fn lend(&mut self) -> Result<Theft, AllocError>
        requires { 1 < (own_view self.old).share }
        ensures { IfOk result (λ theft. Lends theft self.old self.new) }
    {
        let stealer = self.own.stealer()?;
        let pass = self.own.another::<Cut>();
        Ok(Theft { stealer, pass })
    }

    // A theft of its deque comes back.
    pub(crate) fn take_back(&mut self, theft: Theft)
        requires { theft_deque theft ≡ own_deque self.old }
        ensures { GetsBack theft self.old self.new }
    {
        let Theft { stealer, pass } = theft;
        drop(stealer);
        self.own.absorb::<Cut>(pass);
    }

    // It gets a theft.
    pub(crate) fn keep(&mut self, theft: Theft) -> Result<(), AllocError>
        ensures { IfOk result (λ _. HasMore theft self.old self.new) }
    {
        self.thefts.push(theft)?;
        Ok(())
    }

    // It gives up its last theft.
    pub(crate) fn give_up(&mut self) -> Option<Theft>
        ensures some { IfSome result (λ theft. HasMore theft self.new self.old) }
        ensures none { IfNone result (self.old.thefts.items ≡ []) }
    {
        self.thefts.pop()
    }

    // How many names its deque holds, of which it has every share.
    pub(crate) fn count(&mut self) -> usize
        requires { (own_view self.old).share ≡ 32 }
        ensures { Counts result self.old self.new }
    {
        self.own.len_as::<Total>()
    }

    // What it has of the queue: the deck ends.
    pub(crate) fn into_parts(self) -> (Arc<Shared, Global>, Pass<Name, Tokens>)
        ensures queue { result.0 ≡ self.queue }
        ensures pass { result.1 ≡ self.pass }
    {
        let Deck {
            place: _,
            own,
            thefts,
            queue,
            pass,
            sleeper,
        } = self;
        drop(own);
        drop(thefts);
        drop(sleeper);
        (queue, pass)
    }
}
