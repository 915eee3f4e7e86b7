//! Who hears of nodes that were left ready.
ghost use Rattle.std.specs.Thread.{IsSync};

use life_rules::Name;
use node_tree::Context;
use std::sync::Wait;

/// A node that a step left ready, and in which context.
#[derive(Clone, Copy, Debug, PartialEq, Eq)]
pub struct ReadyNode {
    pub name: Name,
    pub on: Context,
}

/// What a hand does with the name of a node that it left ready: it pushes it where another hand
/// finds it, or keeps it for itself. A name is a hint. Whoever takes the node finds out whether it
/// is ready, and a name that is lost is found by a look at the node's word.
pub trait Mail {
    ghost use Rattle.node_walks.specs.Mails.{HearsOf};

    /// What stays of the mail while names come: none of them needs to be kept.
    ghost keeps: { Self → Self → Type 0 };

    /// What it does with the name of a node that is ready in a context.
    ghost hears: { HearsOf Self };

    /// The node of this name is ready in this context, or was.
    fn ready<R: Wait + Sync>(&mut self, rt: &R, name: Name, on: Context)
        requires sync { IsSync R.row }
        ensures keeps { keeps self.old self.new }
        ensures hears { hears name on self.old self.new };

    /// It stays where no name comes.
    ghost none: { (mail : Self) → keeps mail mail };

    /// And where names come after others.
    ghost on: { (a b c : Self) → keeps a b → keeps b c → keeps a c };
}
