//! What a hand shares with the others.
ghost use Rattle.std.specs.Prelude.{IfErr, IfOk};
ghost use Rattle.deck_relay.specs.Desks.{OnlyPosts};
ghost use Rattle.deck_relay.specs.DeskMoves.{EntersDeck, LeavesDeck, TellsPost};

use crate::deck::Deck;
use life_rules::Name;
use loop_queue::LoopPost;
use std::sync::Wait;

/// A hand's desk: its deck, where the names of nodes that are ready in the pool go and from which
/// the others steal, and its post of the loop's queue, by which a worker tells the loop what is
/// ready there, and through which hand 0 drains it.
#[derive(Drop)]
pub struct Desk {
    pub deck: Deck,
    pub post: LoopPost,
}

impl Desk {
    /// Tells the loop of a node that is ready there, and wakes its hand. A name that comes back is
    /// found by a look at the node's word.
    pub fn tell<R: Wait>(&mut self, rt: &R, name: Name)
        ensures same { OnlyPosts self.old self.new }
        ensures tells { TellsPost name self.old self.new }
    {
        let _back = self.post.post(rt, name);
        let _woken = self.deck.sleeper().wake_last();
    }

    /// Adds a name to the deck, or hands it back. Then all hands are woken: one that looks at the
    /// node's word finds it.
    pub fn push<R: Wait>(&mut self, rt: &R, name: Name) -> Result<(), Name>
        ensures same { OnlyPosts self.old self.new }
        ensures enters { IfOk result (λ _. EntersDeck name self.old self.new) }
        ensures back { IfErr result (LeavesDeck name self.old self.new) }
    {
        match self.deck.push(rt, name) {
            Ok(()) => Ok(()),
            Err(back) => {
                self.deck.wake_all();
                Err(back)
            }
        }
    }

    /// Takes a name from the deck.
    pub fn take<R: Wait>(&mut self, rt: &R) -> Option<Name>
        ensures { OnlyPosts self.old self.new }
    {
        self.deck.take(rt)
    }
}
