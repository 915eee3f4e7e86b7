//! How a hand turns to one of its homes, and fills it.
ghost use Rattle.std.specs.Prelude.{◌≡◌, ℕ, Some, None};
ghost use Rattle.table_words.specs.Layouts.{OfControl, index};
ghost use Rattle.table_steps.specs.Views.{IsHandOf, IsPlaceIn, aim_at, IsSameHand, Stays};
ghost use Rattle.table_steps.specs.Slots.{slot_of, home_at};
ghost use Rattle.table_steps.specs.Swaps.{HasHome, TurnsTo, IsSwapped};

use crate::plays::{Subject, Turns};
use crate::table::{OpTable, SeatOf};
use life_rules::Name;
use std::marker::Brand;
use table_rules::Cargo;

impl<P: Cargo> OpTable<P> {
    // Puts this into the node's home, which is empty, by the load that turns to it.
    #[inline(always)]
    pub(crate) fn fill_at(&self, seat: &mut SeatOf<P>, name: Name, item: P)
        requires table { IsHandOf self.now seat.old }
        requires place { IsPlaceIn self.now name }
        requires empty { home_at self.now.frame.layout seat.old.me name ≡ Some None }
        ensures stays { Stays self.now seat.old seat.new }
        ensures filled { IsSwapped self.now.frame name (Some item) None seat.old.me seat.new.me }
    {
        let slot = self.turn_to::<Brand>(seat, name);
        let home = seat.slot_mut(&self.table, slot);
        // so that nothing is dropped
        if home.is_some() {
            unreachable!()
        }
        *home = Some(item);
    }

    // The load gives the home back and takes it again, so that it is the one that is lent. The
    // answer is its slot.
    #[inline(always)]
    pub(crate) fn turn_to<K: Subject>(&self, seat: &mut SeatOf<P>, name: Name) -> usize
        requires table { IsHandOf self.now seat.old }
        requires place { IsPlaceIn self.now name }
        requires home { HasHome self.now.frame.layout seat.old.me name }
        requires subject { K.aim ≡ aim_at self.now name }
        ensures same { IsSameHand seat.old seat.new }
        ensures slot { result ≡ slot_of self.now.frame.layout name }
        ensures turned { (word : ℕ) × TurnsTo (aim_at self.now name)
            (index self.now.frame.layout (OfControl name.block name.node)) word
            seat.old.me seat.new.me }
    {
        let index = self.frame.layout.control(name.block, name.node);
        let slot = self.frame.layout.place(name.block, name.node);
        self.table.load::<Turns<K>>(seat, index);
        slot
    }
}
