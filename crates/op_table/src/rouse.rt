//! How a parked node is woken.
ghost use Rattle.table_steps.specs.Views.{IsHandOf, IsPlaceIn, Stays, knows};
ghost use Rattle.table_steps.specs.Rouses.{MayRouse, IsRoused, rouses};

use crate::table::{Hand, OpTable, SeatOf};
use atomic_table::Play;
use life_rules::{ControlWord, Name};
use table_rules::{Cargo, View};
use table_words::control_number;

/// The exchange by which a node is woken.
pub struct Rouses;

impl<P, E> Play<Option<P>, View<P, E>> for Rouses {
    ghost then = { rouses };
}

impl<P: Cargo> OpTable<P> {
    /// Wakes the parked node, which is ready in the loop then. False exactly where the word that
    /// was read said something else: then nothing changed.
    ///
    /// Step: one exchange of the node's control word, parked to ready in the loop. It loses where
    /// the word changed first. A store would overwrite the word of a node that was taken meanwhile.
    /// Needs: the hand runs the node's callback, or is hand 0. Afterwards: where it won, the word
    /// that it left says that the node is ready in the loop. The hand knows what it knew.
    pub fn rouse(&self, hand: &mut Hand<P>, name: Name) -> bool
        requires table { IsHandOf self.now hand.old }
        requires place { IsPlaceIn self.now name }
        requires rouses { MayRouse (knows hand.old) name }
        ensures stays { Stays self.now hand.old hand.new }
        ensures roused { IsRoused self.now name result hand.old hand.new }
    {
        self.rouse_at(&mut hand.seat, name)
    }

    fn rouse_at(&self, seat: &mut SeatOf<P>, name: Name) -> bool
        requires table { IsHandOf self.now seat.old }
        requires place { IsPlaceIn self.now name }
        requires rouses { MayRouse (knows seat.old) name }
        ensures stays { Stays self.now seat.old seat.new }
        ensures roused { IsRoused self.now name result seat.old seat.new }
    {
        let parked = control_number(name.generation, ControlWord::Parked);
        let ready = control_number(name.generation, ControlWord::ReadyLoop);
        let index = self.frame.layout.control(name.block, name.node);
        let was = self
            .table
            .compare_exchange::<Rouses>(seat, index, parked, ready);
        was == parked
    }
}
