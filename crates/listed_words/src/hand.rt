//! The hand by which one thread steps on a table.

use crate::lists::Lists;
use atomic_table::Seat;
use std::marker::Model;

/// One hand on a table. Contracts see its seat: which table, which number, its view and the slots
/// that it holds. It has no bytes.
#[derive(Drop)]
pub struct Hand<S, V: Lists> {
    pub(crate) seat: Seat<S, V>,
}

impl<S, V: Lists> Model for Hand<S, V> {
    ghost use Rattle.atomic_table.specs.declared.shared.Seat.{Seat};

    ghost Value = { Seat S V };

    ghost view = { λ h. h.seat };
}

impl<S, V: Lists> Hand<S, V> {
    ghost use Rattle.std.specs.Prelude.{◌≡◌};
    ghost use Rattle.atomic_table.specs.Table.{turned};

    /// The slot that was taken last goes behind the others. It is no step.
    pub fn turn(&mut self)
        ensures table { self.new.table_id ≡ self.old.table_id }
        ensures id { self.new.id ≡ self.old.id }
        ensures me { self.new.me ≡ (self.old.me.0, turned self.old.me.1) }
    {
        self.seat.turn();
    }
}
