//! The names that a worker keeps where it and the others find them.
ghost use Rattle.std.specs.Prelude.{◌≡◌, true, false, IfErr, IfOk};
ghost use Rattle.std.specs.Thread.{IsSync};
ghost use Rattle.deck_relay.specs.Desks.{KeepsDesk};
ghost use Rattle.steal_pool.specs.Offered.{EntersDesk, GoesToBackend, GoesToDeck, IsRefusedBy, IsTakenBy, KeepsWhere, Leaves, TellsLoop, backing, stores};

use crate::arranged::Arranged;
use deck_relay::Desk;
use life_rules::Name;
use node_tree::Context;
use node_walks::Mail;
use sleepers::Vigil;
use std::sync::Wait;

/// How many names a worker takes of its deck for its backend, beside the first.
const MOST_BESIDE: u32 = 2;

/// A worker's backend, and its desk where it has one. The backend is what the worker takes names
/// from: it is submitted what the worker takes of its deck, what it finds ready by a look at a
/// node's word, and the first name that a step of its own leaves ready in the pool since it asked
/// for one. The other names that its steps leave ready there are pushed to the deck, from which all
/// hands take, and without a desk submitted to the backend too. Where the backend has lost a name
/// the worker looks at each node's word. What is ready in the loop is posted to the loop; without a
/// desk hand 0 finds it.
#[derive(Drop)]
pub struct WorkerMail {
    pub backend: Arranged,
    pub desk: Option<Desk>,
    /// How it waits for work, where it has a desk.
    pub vigil: Vigil,
    /// The backend was submitted a name that the worker's own step left ready, and wasn't asked for
    /// a name since.
    pub has_own: bool,
    /// How many names the backend took and didn't hand out.
    pub held: u32,
    /// It had some of them, and said that it had none.
    pub lost: bool,
    /// The backend handed out as many names as the table has places, of which none could be taken:
    /// it may never end, and names alone don't show any more that nothing is ready.
    pub endless: bool,
}

impl Mail for WorkerMail {
    ghost use Rattle.deck_relay.specs.Desks.{KeepsDesk, desk-here, desk-on};
    ghost use Rattle.steal_pool.specs.Offered.{HearsOffer, backing, stores};

    ghost keeps = { λ old new. KeepsDesk old.desk new.desk };

    ghost hears = { λ name on old new. HearsOffer name on
        (stores old.desk old.has_own
        (backing old.held ((Backend-box old.backend.backend).lawful old.backend.backend.value)
        ((Backend-box old.backend.backend).stock old.backend.backend.value)))
        (stores new.desk new.has_own
        (backing new.held ((Backend-box new.backend.backend).lawful new.backend.backend.value)
        ((Backend-box new.backend.backend).stock new.backend.backend.value))) };

    ghost none = { λ offers. desk-here offers.desk };

    ghost on = { λ first second third. desk-on first.desk second.desk third.desk };

    fn ready<R: Wait + Sync>(&mut self, rt: &R, name: Name, on: Context) {
        match on {
            Context::Loop => self.tell(rt, name),
            Context::Pool => {
                let _kept = self.keep(rt, name);
            }
        }
    }
}

impl WorkerMail {
    // Tells the loop of a node that is ready there, where the worker has a desk.
    fn tell<R: Wait>(&mut self, rt: &R, name: Name)
        ensures desk { KeepsDesk self.old.desk self.new.desk }
        ensures tells { TellsLoop name self.old.desk self.new.desk }
        ensures own { self.new.has_own ≡ self.old.has_own }
        ensures backend { backing self.new.held (lawful self.new.backend.backend)
            (stock self.new.backend.backend)
            ≡ backing self.old.held (lawful self.old.backend.backend)
            (stock self.old.backend.backend) }
    {
        match &mut self.desk {
            None => {}
            Some(desk) => desk.tell(rt, name),
        }
    }

    // Pushes a name to the deck, where the worker has one; or hands it back.
    fn push<R: Wait>(&mut self, rt: &R, name: Name) -> Result<(), Name>
        ensures desk { KeepsDesk self.old.desk self.new.desk }
        ensures enters { IfOk result (λ _. EntersDesk name self.old.desk self.new.desk) }
        ensures back { IfErr result (Leaves name self.old.desk self.new.desk) }
        ensures own { self.new.has_own ≡ self.old.has_own }
        ensures backend { backing self.new.held (lawful self.new.backend.backend)
            (stock self.new.backend.backend)
            ≡ backing self.old.held (lawful self.old.backend.backend)
            (stock self.old.backend.backend) }
    {
        match &mut self.desk {
            None => Err(name),
            Some(desk) => desk.push(rt, name),
        }
    }

    // Takes a name of the deck, where the worker has one.
    pub(crate) fn take<R: Wait>(&mut self, rt: &R) -> Option<Name>
        ensures { KeepsDesk self.old.desk self.new.desk }
    {
        match &mut self.desk {
            None => None,
            Some(desk) => desk.take(rt),
        }
    }

    /// Keeps the name of a node that is ready in the pool. False where no place was left for it.
    pub fn submit<R: Wait>(&mut self, rt: &R, name: Name) -> bool
        ensures desk { KeepsDesk self.old.desk self.new.desk }
        ensures goes { GoesToDeck name
            (stores self.old.desk self.old.has_own
            (backing self.old.held (lawful self.old.backend.backend)
            (stock self.old.backend.backend)))
            (stores self.new.desk self.new.has_own
            (backing self.new.held (lawful self.new.backend.backend)
            (stock self.new.backend.backend))) }
        ensures own { self.new.has_own ≡ self.old.has_own }
    {
        match self.push(rt, name) {
            Ok(()) => true,
            Err(back) => self.submit_to_backend(back).is_ok(),
        }
    }

    // Keeps the name of a node that the worker's own step left ready in the pool: the first of them
    // for the worker itself.
    fn keep<R: Wait>(&mut self, rt: &R, name: Name) -> bool
        ensures desk { KeepsDesk self.old.desk self.new.desk }
        ensures keeps { KeepsWhere self.old.has_own name
            (stores self.old.desk self.old.has_own
            (backing self.old.held (lawful self.old.backend.backend)
            (stock self.old.backend.backend)))
            (stores self.new.desk self.new.has_own
            (backing self.new.held (lawful self.new.backend.backend)
            (stock self.new.backend.backend))) }
        ensures own { self.new.has_own ≡ true }
    {
        if self.has_own {
            return self.submit(rt, name);
        }
        self.has_own = true;
        self.give_backend(rt, name)
    }

    // Submits a name to the backend, or hands it back.
    fn submit_to_backend(&mut self, name: Name) -> Result<(), Name>
        ensures desk { self.new.desk ≡ self.old.desk }
        ensures taken { IfOk result (λ _. IsTakenBy name
            (backing self.old.held (lawful self.old.backend.backend)
            (stock self.old.backend.backend))
            (backing self.new.held (lawful self.new.backend.backend)
            (stock self.new.backend.backend))) }
        ensures refused { IfErr result (IsRefusedBy name
            (backing self.old.held (lawful self.old.backend.backend)
            (stock self.old.backend.backend))
            (backing self.new.held (lawful self.new.backend.backend)
            (stock self.new.backend.backend))) }
        ensures own { self.new.has_own ≡ self.old.has_own }
    {
        self.backend.submit(name)?;
        self.held = self.held.saturating_add(1);
        Ok(())
    }

    // Asks the backend for a name.
    fn ask_backend(&mut self) -> Option<Name>
        ensures { self.new.desk ≡ self.old.desk }
    {
        let name = self.backend.next();
        if name.is_some() {
            self.held = self.held.saturating_sub(1);
        } else if self.held != 0 {
            self.held = 0;
            self.lost = true;
        }
        name
    }

    // Submits a name to the backend; one that it hands back goes to the deck.
    fn give_backend<R: Wait>(&mut self, rt: &R, name: Name) -> bool
        ensures desk { KeepsDesk self.old.desk self.new.desk }
        ensures goes { GoesToBackend name
            (stores self.old.desk self.old.has_own
            (backing self.old.held (lawful self.old.backend.backend)
            (stock self.old.backend.backend)))
            (stores self.new.desk self.new.has_own
            (backing self.new.held (lawful self.new.backend.backend)
            (stock self.new.backend.backend))) }
        ensures own { self.new.has_own ≡ self.old.has_own }
    {
        match self.submit_to_backend(name) {
            Ok(()) => true,
            Err(back) => self.push(rt, back).is_ok(),
        }
    }

    /// Keeps the name for the worker itself, where it is to be kept.
    pub fn submit_where<R: Wait>(&mut self, rt: &R, submits: bool, name: Name) -> bool
        ensures desk { KeepsDesk self.old.desk self.new.desk }
        ensures none { submits ≡ false → result ≡ false }
    {
        if submits {
            self.give_backend(rt, name)
        } else {
            false
        }
    }

    /// The next name of the backend. Where it has none, names of the deck are submitted to it
    /// first; one that it hands back is the next.
    pub fn next<R: Wait>(&mut self, rt: &R) -> Option<Name>
        ensures { KeepsDesk self.old.desk self.new.desk }
    {
        self.has_own = false;
        match self.ask_backend() {
            Some(name) => Some(name),
            None => self.refill(rt),
        }
    }

    // Submits names of the deck to the backend, and takes one of it.
    fn refill<R: Wait>(&mut self, rt: &R) -> Option<Name>
        ensures { KeepsDesk self.old.desk self.new.desk }
    {
        let first = self.take(rt)?;
        match self.submit_to_backend(first) {
            Ok(()) => {}
            Err(back) => return Some(back),
        }
        self.take_beside(rt);
        self.ask_backend()
    }

    // Takes some more names of the deck for the backend, as long as no other worker could take them
    // at once.
    fn take_beside<R: Wait>(&mut self, rt: &R)
        ensures { KeepsDesk self.old.desk self.new.desk }
    {
        for _beside in 0..MOST_BESIDE {
            if !self.all_work() {
                return;
            }
            let Some(name) = self.take(rt) else {
                return;
            };
            let _kept = self.give_backend(rt, name);
        }
    }

    /// The desk. The backend is dropped.
    pub(crate) fn into_desk(self) -> Option<Desk>
        ensures { result ≡ self.desk }
    {
        let WorkerMail {
            backend,
            desk,
            vigil: _,
            has_own: _,
            held: _,
            lost: _,
            endless: _,
        } = self;
        drop(backend);
        desk
    }

    // Every worker works, as far as this one can tell.
    fn all_work(&self) -> bool {
        match &self.desk {
            None => true,
            Some(desk) => desk.deck.sleeper().all_work(),
        }
    }
}
