//! What a worker asks of its backend.
ghost use Rattle.std.specs.Prelude.{◌≡◌, Bool, true, IfOk, IfErr, IfSome, IfNone};
ghost use Rattle.pool_backends.specs.Stocks.{Stock, Arranges, Submits, HandsBack, HandsOut, HasNone};

use crate::order::Order;
use life_rules::Name;

/// A backend of a worker ([exec.sysctxrepl.psb]): it keeps names of nodes that were found ready,
/// and hands them out. Nothing is asked of one that isn't lawful.
pub trait Backend: Drop {
    /// Its pending names, the order in which it hands them out, and how many it has room for.
    ghost stock: { Self → Stock };

    /// Whether it keeps the clauses of its calls.
    ghost lawful: { Self → Bool };

    /// Sets the order in which names are handed out from now on. The pending names stay.
    fn arrange(&mut self, order: Order)
        ensures lawful { lawful self.old ≡ true → lawful self.new ≡ true }
        ensures arranged { lawful self.old ≡ true →
            Arranges order (stock self.old) (stock self.new) };

    /// Submits a name: it comes last of the pending ones. It is handed back exactly where as many
    /// names are pending as there is room for, and then nothing changed.
    fn submit(&mut self, name: Name) -> Result<(), Name>
        ensures lawful { lawful self.old ≡ true → lawful self.new ≡ true }
        ensures submitted { lawful self.old ≡ true →
            IfOk result (λ _. Submits name (stock self.old) (stock self.new)) }
        ensures back { lawful self.old ≡ true →
            IfErr result (HandsBack name (stock self.old) (stock self.new)) };

    /// Hands out the pending name whose turn it is: under Fifo the first, under Lifo the last. None
    /// exactly where none is pending.
    fn next(&mut self) -> Option<Name>
        ensures lawful { lawful self.old ≡ true → lawful self.new ≡ true }
        ensures out { lawful self.old ≡ true →
            IfSome result (HandsOut (stock self.old) (stock self.new)) }
        ensures none { lawful self.old ≡ true →
            IfNone result (HasNone (stock self.old) (stock self.new)) };
}
