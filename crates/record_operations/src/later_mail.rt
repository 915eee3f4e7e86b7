//! The names of nodes that serving futures left ready.
ghost use Rattle.std.specs.Prelude.{◌≡◌};
ghost use Rattle.std.specs.Thread.{IsSync};
ghost use Rattle.deck_relay.specs.SameDecks.{KeepsDeck};
ghost use Rattle.node_walks.specs.Mails.{HearsEach};
ghost use Rattle.run_loop.specs.Fetches.{HearsName};
ghost use Rattle.run_loop.specs.Loops.{deck_of};
ghost use Rattle.record_operations.specs.Later.{HasNoNames};

use life_rules::Name;
use node_tree::Context;
use node_walks::{Mail, ReadyNode};
use run_loop::Loop;
use std::alloc::Global;
use std::sync::Wait;

/// Names of which the loop is told afterwards: each is a hint.
#[derive(Drop)]
pub struct LaterMail {
    list: Vec<ReadyNode>,
    /// There was no memory for a name.
    lost: bool,
}

impl LaterMail {
    /// No names. It takes no memory.
    pub(crate) fn none(alloc: Global) -> LaterMail
        ensures none { HasNoNames result }
    {
        LaterMail {
            list: Vec::new(alloc),
            lost: false,
        }
    }

    /// Tells the loop of them, in their order, as if it had left the nodes ready itself. Where a
    /// name was lost each hand is woken, and one that looks at each node finds it.
    pub(crate) fn tell<R: Wait + Sync>(&mut self, rt: &R, looped: &mut Loop)
        requires sync { IsSync R.row }
        ensures rest { looped.new ≡ record looped.old { names = looped.new.names } }
        ensures deck { KeepsDeck (deck_of looped.old) (deck_of looped.new) }
        ensures tells { HearsEach HearsName self.old.list.items looped.old.names looped.new.names }
        ensures none { HasNoNames self.new }
    {
        for ready in &self.list {
            looped.tell(rt, ready.name, ready.on);
        }
        self.list.clear();
        if self.lost {
            self.lost = false;
            looped.wake_all();
        }
    }
}

impl Mail for LaterMail {
    ghost use Rattle.std.specs.Prelude.{⊤};
    ghost use Rattle.record_operations.specs.Later.{HearsLater};

    ghost keeps = { λ _ _. ⊤ };

    ghost hears = { HearsLater };

    ghost none = { λ _. tt };

    ghost on = { λ _ _ _ _ _. tt };

    fn ready<R: Wait + Sync>(&mut self, rt: &R, name: Name, on: Context) {
        let _ = rt;
        match self.list.push(ReadyNode { name, on }) {
            Ok(()) => {}
            Err(_) => self.lost = true,
        }
    }
}
