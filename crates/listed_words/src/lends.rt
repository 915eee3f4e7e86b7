//! How a hand lends its slot in place.
ghost use Rattle.std.specs.Prelude.{◌≡◌, ◌∷◌};
ghost use types.Logic.{sem};
ghost use denote.Follow.{follows};
ghost use Rattle.atomic_table.specs.Table.{rest};
ghost use Rattle.atomic_table.specs.Lent.{seat_with};
ghost use Rattle.listed_words.specs.contracts.hand.Hand.{the_row};

use crate::hand::Hand;
use crate::lists::Lists;
use crate::table::StepTable;
use crate::words::slot_mut;
use atomic_table::TableRule;

impl<S: Drop, V: Lists> Hand<S, V> {
    /// The slot that was taken last, as plain memory. It is no step.
    ///
    /// Afterwards: once the borrow is over, what was written there lies in the slot.
    #[inline(always)]
    pub fn slot_mut<'a, K, P: TableRule<S, V, K>>(
        &'a mut self,
        table: &'a StepTable<S, V, K, P>,
        slot: usize,
    ) -> &'a mut S
        requires table { self.old.table_id ≡ table.now.table_id }
        requires taken { (old : S) × (self.old.me.1 ≡ (slot, old) ∷ rest self.old.me.1) }
        ensures* writes_back { sem 𝓛 (follows (the_row S.row V.row V.Lists) S.row
            self.entry.ghost_name result.ghost_name (seat_with self.old slot)) }
        ensures value { self.old.me.1 ≡ (slot, result.now) ∷ rest self.old.me.1 }
    {
        let seat = &mut self.seat;
        slot_mut(seat, &table.words, slot)
    }
}
