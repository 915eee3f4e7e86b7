//! How a hand lends what lies in one of its homes.
ghost use Rattle.std.specs.Prelude.{◌≡◌, Some, ⊤};
ghost use Rattle.std.specs.Borrow.{sem, LendsSo};
ghost use Rattle.std.specs.Option.{option_copied_mut};
ghost use Rattle.std.specs.contracts.option.Option.{the_row as OptionOf};
ghost use Rattle.table_steps.specs.Views.{IsHandOf, IsPlaceIn};
ghost use Rattle.table_steps.specs.Slots.{home_at};
ghost use Rattle.table_steps.specs.Swaps.{HasHome};
ghost use Rattle.op_table.specs.contracts.table.Hand.{the_row};
ghost use Rattle.op_table.specs.Lends.{EndsWithHome, EndsWithItem, EndsWithNone};

use crate::table::{Hand, OpTable};
use life_rules::Name;
use std::marker::Brand;
use table_rules::Cargo;

impl<P: Cargo> Hand<P> {
    /// Lends the node's home, to fill it or to empty it. It is always there.
    ///
    /// Step: one load of the node's control word, by which the hand turns to this home. What is
    /// done to the home is no step: no other hand sees a home that this hand has.
    /// Needs: the hand has the home.
    /// Afterwards: once the loan is over, what was left there lies in the home. Nothing else
    /// changed.
    #[inline(always)]
    pub fn home_mut<'a>(
        &'a mut self,
        table: &'a OpTable<P>,
        name: Name,
    ) -> Option<&'a mut Option<P>>
        requires table { IsHandOf table.now self.old }
        requires place { IsPlaceIn table.now name }
        requires home { HasHome table.now.frame.layout self.old.me name }
        ensures* writes_back { sem 𝓛 (LendsSo (the_row P.row P.Entry.row P.Over.row P.Cargo)
            (OptionOf P.row) self.entry result
            (λ n w. EndsWithHome table.now name self.old n result w) (λ n. ⊤)) }
        ensures value { home_at table.now.frame.layout self.old.me name
            ≡ option_copied_mut result }
    {
        let slot = table.turn_to::<Brand>(&mut self.seat, name);
        Some(self.seat.slot_mut(&table.table, slot))
    }

    /// Lends the item in the node's home, to change it where it lies. None exactly where the home
    /// is empty.
    ///
    /// Step: that of `home_mut`.
    /// Needs: the hand has the home.
    /// Afterwards: once the loan is over, what was left there lies in the home. Nothing else
    /// changed.
    #[inline(always)]
    pub fn item_mut<'a>(&'a mut self, table: &'a OpTable<P>, name: Name) -> Option<&'a mut P>
        requires table { IsHandOf table.now self.old }
        requires place { IsPlaceIn table.now name }
        requires home { HasHome table.now.frame.layout self.old.me name }
        ensures* writes_back { sem 𝓛 (LendsSo (the_row P.row P.Entry.row P.Over.row P.Cargo)
            P.row self.entry result
            (λ n w. EndsWithItem table.now name self.old n result w)
            (λ n. EndsWithNone table.now name self.old n result)) }
        ensures value { home_at table.now.frame.layout self.old.me name
            ≡ Some (option_copied_mut result) }
    {
        let slot = table.turn_to::<Brand>(&mut self.seat, name);
        self.seat.slot_mut(&table.table, slot).as_mut()
    }
}
