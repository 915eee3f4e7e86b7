//! The names of nodes that a loop was told of.
ghost use Rattle.std.specs.Prelude.{◌≡◌, ◌+◌, ◌≤◌, ◌∷◌, [], ◌++◌, ◌⊎◌, true, false, IfOk, IfErr, IfSome, IfNone, None, vec_capacity, vec_len};
ghost use Rattle.deck_relay.specs.Decks.{IsSameDeck};
ghost use Rattle.deck_relay.specs.SameDecks.{KeepsDeck};
ghost use Rattle.run_loop.specs.Fetches.{FetchesNone, FetchesOne, FetchesWhere, FindsNoneOf, HearsName, IsNameListed, IsPushed, IsShared, TakesOf};
ghost use Rattle.run_loop.specs.Longer.{AreMoreNames};

use deck_relay::Deck;
use life_rules::Name;
use node_tree::Context;
use node_walks::Mail;
use std::alloc::{AllocError, Global};
use std::sync::Wait;

/// Names in the order in which they came, and the deck of the loop's hand, where it has one. Each
/// name is a hint: whoever takes the node finds out whether it is ready.
#[derive(Drop)]
pub struct LoopMail {
    pub list: Vec<Name>,
    /// Where names of nodes go that are ready in the pool.
    pub deck: Option<Deck>,
    /// The next name that goes to the deck is the loop's own: nobody is woken for it.
    keeps_next: bool,
    /// The node of roots: a root that is ready awaits `collect`, and nobody need be told of it.
    root: u32,
}

impl LoopMail {
    /// No names, with room for so many, of nodes of which the last is the root; and no deck.
    pub fn with_room(alloc: Global, room: u32, nodes: u32) -> Result<LoopMail, AllocError>
        requires some { 1 ≤ nodes }
        ensures empty { IfOk result (λ names. names.list.items ≡ []) }
        ensures room { IfOk result (λ names. room ≤ vec_capacity names.list) }
        ensures deck { IfOk result (λ names. names.deck ≡ None) }
        ensures root { IfOk result (λ names. names.root + 1 ≡ nodes) }
    {
        Ok(LoopMail {
            list: Vec::with_capacity(alloc, room as usize)?,
            deck: None,
            keeps_next: false,
            root: nodes - 1,
        })
    }

    /// Adds a name at the back. Without memory for it all stays as it was.
    #[inline(always)]
    pub fn add(&mut self, name: Name) -> Result<(), AllocError>
        ensures added { IfOk result
            (λ _. self.new.list.items ≡ self.old.list.items ++ name ∷ []) }
        ensures same { IfErr result (λ _. self.new.list.items ≡ self.old.list.items) }
        ensures full { IfErr result (λ _. vec_capacity self.old.list ≤ vec_len self.old.list) }
        ensures root { self.new.root ≡ self.old.root }
        ensures deck { self.new.deck ≡ self.old.deck }
    {
        self.list.push(name)?;
        Ok(())
    }

    // Takes a name of the deck, where there is one.
    fn take<R: Wait>(&mut self, rt: &R) -> Option<Name>
        ensures list { self.new.list ≡ self.old.list }
        ensures takes { IfSome result (λ name. TakesOf name self.old.deck self.new.deck) }
        ensures none { IfNone result (FindsNoneOf self.old.deck self.new.deck) }
        ensures root { self.new.root ≡ self.old.root }
        ensures deck { KeepsDeck self.old.deck self.new.deck }
    {
        match &mut self.deck {
            None => None,
            Some(deck) => deck.take(rt),
        }
    }

    // Moves a name of the deck to the back of the list. False where none was found, or there is no
    // memory for one: then none is taken. From then on the next that goes to the deck is its own.
    fn fetch_one<R: Wait>(&mut self, rt: &R) -> bool
        ensures one { result ≡ true → FetchesOne self.old self.new }
        ensures none { result ≡ false → FetchesNone self.old self.new }
        ensures more { AreMoreNames self.old.list.items self.new.list.items }
        ensures deck { KeepsDeck self.old.deck self.new.deck }
    {
        self.keeps_next = true;
        if self.list.reserve(1).is_err() {
            return false;
        }
        let Some(name) = self.take(rt) else {
            return false;
        };
        self.list.push_reserved(name);
        true
    }

    /// Where the loop helps the pool, and has no other names: moves one of the deck to the list.
    ///
    /// From then on the first name that goes to the deck is the loop's own: it wakes nobody, since
    /// a later call of this one finds it. So while no hand was woken since the deck was empty it
    /// has one such name at most, beside those that a steal moved there, and the loop comes to
    /// them: it takes a name in each poll that finds the list empty, and sleeps only after such a
    /// poll and a look at each node. Each further name wakes a hand, which takes names of the deck
    /// until it finds none.
    pub fn fetch<R: Wait>(&mut self, rt: &R, helps: bool)
        ensures fetches { FetchesWhere helps self.old self.new }
        ensures more { AreMoreNames self.old.list.items self.new.list.items }
        ensures deck { KeepsDeck self.old.deck self.new.deck }
    {
        if !helps {
            return;
        }
        if !self.list.is_empty() {
            return;
        }
        self.fetch_one(rt);
    }

    // Adds a name at the back, but of a root. Without memory it is lost, and a scan finds its node.
    fn list_name(&mut self, name: Name)
        ensures listed { IsNameListed name self.old self.new }
        ensures root { self.new.root ≡ self.old.root }
        ensures deck { self.new.deck ≡ self.old.deck }
    {
        if name.node != self.root {
            let _lost = self.add(name);
        }
    }

    // Pushes a name to the deck, or where there is none adds it at the back.
    fn share<R: Wait>(&mut self, rt: &R, name: Name)
        ensures shared { IsShared name self.old self.new self.old.deck self.new.deck }
        ensures root { self.new.root ≡ self.old.root }
        ensures deck { KeepsDeck self.old.deck self.new.deck }
    {
        let keeps = self.keeps_next;
        self.keeps_next = false;
        match &mut self.deck {
            None => self.list_name(name),
            Some(deck) => push(rt, deck, keeps, name),
        }
    }

    /// Takes note of a node that is ready in this context: one that is ready in the pool is pushed
    /// to the deck, where there is one; each other name is added at the back.
    pub fn hear<R: Wait>(&mut self, rt: &R, name: Name, on: Context)
        ensures hears { HearsName name on self.old self.new }
        ensures deck { KeepsDeck self.old.deck self.new.deck }
    {
        match on {
            Context::Loop => self.list_name(name),
            Context::Pool => self.share(rt, name),
        }
    }

    /// The deck.
    pub fn into_deck(self) -> Option<Deck>
        ensures { result ≡ self.deck }
    {
        self.deck
    }
}

// Wakes a hand that sleeps, unless the loop keeps the name.
fn wake_unless(deck: &Deck, keeps: bool) {
    if !keeps {
        deck.sleeper().wake_one();
    }
}

// Pushes a name to the deck, and where it isn't kept wakes a hand. Where the deck hands it back
// each hand is woken, and a look at each node finds it.
fn push<R: Wait>(rt: &R, deck: &mut Deck, keeps: bool, name: Name)
    ensures pushed { IsPushed name deck.old deck.new }
    ensures same { IsSameDeck deck.old deck.new }
{
    match deck.put(rt, name) {
        Ok(()) => wake_unless(deck, keeps),
        Err(_) => deck.wake_all(),
    }
}

impl Mail for LoopMail {
    ghost use Rattle.deck_relay.specs.SameDecks.{KeepsDeck, keeps-here, keeps-on};
    ghost use Rattle.run_loop.specs.Fetches.{HearsName};

    ghost keeps = { λ old new. KeepsDeck old.deck new.deck };

    ghost hears = { HearsName };

    ghost none = { λ names. keeps-here names.deck };

    ghost on = { λ first second third. keeps-on first.deck second.deck third.deck };

    fn ready<R: Wait + Sync>(&mut self, rt: &R, name: Name, on: Context) {
        self.hear(rt, name, on);
    }
}
