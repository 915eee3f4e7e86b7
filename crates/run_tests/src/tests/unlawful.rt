//! A backend that isn't lawful, in one of several ways.
use life_rules::Name;
use pool_backends::RingBackend;
use run_workers::{Backend, Order};
use std::alloc::{AllocError, Global};
use std::sync::Arc;
use std::sync::atomic::{AtomicU64, Ordering};

/// What a backend does that it may not.
#[derive(Clone, Copy, PartialEq, Eq)]
pub enum Way {
    /// Nothing.
    None,
    /// Each second name that it takes is lost.
    Drops,
    /// Each name is handed out twice.
    Repeats,
    /// It hands out names that nobody submitted, without end: of each block, each node, and the
    /// generations 0 to 3.
    Invents,
    /// A name is handed out once 200 later ones came.
    Keeps,
}

/// A ring of 256 names behind which one of these ways stands.
#[derive(Drop)]
pub struct Unlawful {
    way: Way,
    /// How many names all backends of its crew were submitted.
    submitted: Arc<AtomicU64, Global>,
    ring: RingBackend,
    /// What was handed out last, where it is to be handed out again.
    again: Option<Name>,
    /// How many names it has taken, or invented.
    count: u32,
    /// How many are in the ring.
    kept: u32,
}

impl Unlawful {
    pub fn new(
        alloc: Global,
        way: Way,
        submitted: Arc<AtomicU64, Global>,
    ) -> Result<Unlawful, AllocError> {
        Ok(Unlawful {
            way,
            submitted,
            ring: RingBackend::new(alloc, 256)?,
            again: None,
            count: 0,
            kept: 0,
        })
    }

    fn keep(&mut self, name: Name) -> Result<(), Name> {
        self.kept = self.kept.saturating_add(1);
        self.ring.submit(name)
    }

    fn repeat(&mut self) -> Option<Name> {
        if self.again.is_some() {
            return self.again.take();
        }
        self.again = self.ring.next();
        self.again
    }

    fn invent(&mut self) -> Name {
        self.count = self.count.wrapping_add(1);
        Name {
            block: self.count % 9,
            generation: self.count / 9 % 4,
            node: self.count / 36 % 24,
        }
    }

    fn give_late(&mut self) -> Option<Name> {
        if self.kept <= 200 {
            return None;
        }
        self.kept -= 1;
        self.ring.next()
    }
}

impl Backend for Unlawful {
    ghost use Rattle.std.specs.Prelude.{false};
    ghost use Rattle.pool_backends.specs.Rings.{stock_of};

    ghost stock = { λ backend. stock_of backend.ring };

    ghost lawful = { λ _. false };

    fn arrange(&mut self, order: Order) {
        self.ring.arrange(order);
    }

    fn submit(&mut self, name: Name) -> Result<(), Name> {
        let _before = self.submitted.fetch_add(1, Ordering::SeqCst);
        self.count = self.count.wrapping_add(1);
        if self.way == Way::Drops && self.count % 2 == 0 {
            return Ok(());
        }
        self.keep(name)
    }

    fn next(&mut self) -> Option<Name> {
        match self.way {
            Way::None | Way::Drops => self.ring.next(),
            Way::Repeats => self.repeat(),
            Way::Invents => Some(self.invent()),
            Way::Keeps => self.give_late(),
        }
    }
}
