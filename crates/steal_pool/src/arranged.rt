//! A backend in its order.
ghost use Rattle.std.specs.Prelude.{◌≡◌, true, IfOk, IfErr, IfSome, IfNone};
ghost use Rattle.pool_backends.specs.Stocks.{Arranges, Submits, HandsBack, HandsOut, HasNone};

use life_rules::Name;
use pool_backends::{Backend, Order};

/// A backend that was arranged in this order, and stays so: no call arranges it anew, and nobody
/// gets at what is in it.
#[derive(Drop)]
pub struct Arranged {
    backend: Box<dyn Backend + Send>,
    order: Order,
}

impl Arranged {
    // The backend, arranged in this order.
    pub(crate) fn new(backend: Box<dyn Backend + Send>, order: Order) -> Arranged
        ensures order { result.order ≡ order }
        ensures lawful { lawful backend ≡ true → lawful result.backend ≡ true }
        ensures arranged { lawful backend ≡ true →
            Arranges order (stock backend) (stock result.backend) }
    {
        let mut arranged = backend;
        arranged.arrange(order);
        Arranged {
            backend: arranged,
            order,
        }
    }

    /// Submits a name, as `Backend::submit` does.
    pub fn submit(&mut self, name: Name) -> Result<(), Name>
        ensures order { self.new.order ≡ self.old.order }
        ensures lawful { lawful self.old.backend ≡ true → lawful self.new.backend ≡ true }
        ensures submitted { lawful self.old.backend ≡ true →
            IfOk result (λ _. Submits name (stock self.old.backend) (stock self.new.backend)) }
        ensures back { lawful self.old.backend ≡ true →
            IfErr result (HandsBack name (stock self.old.backend) (stock self.new.backend)) }
    {
        self.backend.submit(name)
    }

    /// Hands out the name whose turn it is, as `Backend::next` does.
    pub fn next(&mut self) -> Option<Name>
        ensures order { self.new.order ≡ self.old.order }
        ensures lawful { lawful self.old.backend ≡ true → lawful self.new.backend ≡ true }
        ensures out { lawful self.old.backend ≡ true →
            IfSome result (HandsOut (stock self.old.backend) (stock self.new.backend)) }
        ensures none { lawful self.old.backend ≡ true →
            IfNone result (HasNone (stock self.old.backend) (stock self.new.backend)) }
    {
        self.backend.next()
    }
}
