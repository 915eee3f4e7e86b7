//! How a loop learns of names from others.
ghost use Rattle.std.specs.Prelude.{◌≡◌};
ghost use Rattle.std.specs.Thread.{IsSync};
ghost use Rattle.deck_relay.specs.SameDecks.{KeepsDeck};
ghost use Rattle.loop_queue.specs.Moves.{Drains};
ghost use Rattle.loop_queue.specs.Posts.{IsSamePost};
ghost use Rattle.run_loop.specs.Fetches.{HearsName};
ghost use Rattle.run_loop.specs.Longer.{AreMoreNames};
ghost use Rattle.run_loop.specs.Loops.{IsTold, told, deck_of};

use crate::looped::Loop;
use life_rules::Name;
use loop_queue::{Drained, LoopPost};
use node_tree::Context;
use std::sync::Wait;

impl Loop {
    /// Tells the loop of a node that is ready in this context, as if it had left it so itself:
    /// where its hand has a deck, the name of one that is ready in the pool is pushed there. Each
    /// other name but of a root goes to the back of those that it was told of, where there is
    /// memory for it.
    pub fn tell<R: Wait + Sync>(&mut self, rt: &R, name: Name, on: Context)
        requires sync { IsSync R.row }
        ensures rest { self.new ≡ record self.old { names = self.new.names } }
        ensures hears { HearsName name on self.old.names self.new.names }
        ensures deck { KeepsDeck (deck_of self.old) (deck_of self.new) }
    {
        self.names.hear(rt, name, on);
    }

    /// Moves names from a queue to the back of those that the loop was told of, through this post
    /// ([exec.run.loop]): until the queue was read as empty, as many were moved as it has room for,
    /// or there is no memory for the next, which stays there. The next poll serves them.
    pub fn drain<R: Wait>(&mut self, rt: &R, post: &mut LoopPost) -> Drained
        ensures same { IsSamePost post.old post.new }
        ensures drained { Drains result (told self.old) self.new.names.list post.old post.new }
        ensures rest { IsTold (told self.new) self.old self.new }
        ensures more { AreMoreNames (told self.old) (told self.new) }
        ensures deck { KeepsDeck (deck_of self.old) (deck_of self.new) }
    {
        post.drain(rt, &mut self.names.list)
    }
}
