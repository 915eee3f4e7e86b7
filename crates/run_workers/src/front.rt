//! The work of hand 0.
ghost use Rattle.std.specs.Thread.{IsSync};
ghost use Rattle.deck_relay.specs.Desks.{KeepsOwn};

use exec_recv::Item;
use op_slot::Hand;
use std::alloc::Global;
use std::sync::Wait;
use steal_pool::Desk;

/// What is done on hand 0 of a table while workers serve its pool, on the thread that called. It
/// joins the table's scope: else its workers never end.
pub trait Front: Drop {
    ghost use Rattle.std.specs.Prelude.{Option};
    ghost use Rattle.atomic_table.specs.declared.shared.Seat.{Seat};
    ghost use Rattle.table_rules.specs.declared.view.View.{View};
    ghost use Rattle.home_items.specs.declared.entry.Entry.{Entry};
    ghost use Rattle.home_items.specs.declared.item.Item.{Item};
    ghost use Rattle.deck_relay.specs.declared.desk.Desk.{Desk};

    /// What the work needs of the hand, and of its desk.
    ghost needs: { Self → Seat (Option Item) (View Item Entry) → Option Desk → Type 0 };

    /// What it leaves of itself, and of the hand.
    ghost leaves: { Self → Self → Seat (Option Item) (View Item Entry) → Type 0 };

    /// Works on the hand, with this desk, and gives them back. Where `helps` is true no worker
    /// serves the pool, so the work has to take what is ready there, too.
    fn work<R: Wait + Sync>(
        &mut self,
        rt: &R,
        alloc: Global,
        hand: Hand<Item>,
        desk: Option<Desk>,
        helps: bool,
    ) -> (Hand<Item>, Option<Desk>)
        requires sync { IsSync R.row }
        requires needs { needs self.old hand desk }
        ensures leaves { leaves self.old self.new result.0 }
        ensures desk { KeepsOwn desk result.1 };
}
