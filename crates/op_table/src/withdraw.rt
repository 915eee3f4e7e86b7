//! How a callback is removed by the hand that holds its node ([stopcallback]).
ghost use Rattle.std.specs.Prelude.{◌≡◌};
ghost use Rattle.table_steps.specs.Views.{IsHandOf, IsPlaceIn, aim_at, Stays, knows};
ghost use Rattle.table_steps.specs.Callbacks.{WithdrawsAt, CanWithdraw, IsWithdrawn};

use crate::plays::Subject;
use crate::reads::says_phase;
use crate::table::{Hand, OpTable, SeatOf};
use atomic_table::Play;
use life_rules::{CallbackPhase, Name};
use std::marker::{Brand, PhantomData};
use table_rules::{Cargo, View};
use table_words::callback_number;

/// The exchange by which a callback is removed.
pub struct Withdraws<K> {
    subject: PhantomData<K>,
}

impl<P, E, K: Subject> Play<Option<P>, View<P, E>> for Withdraws<K> {
    ghost then = { WithdrawsAt K.aim };
}

impl<P: Cargo> OpTable<P> {
    /// Removes the node's callback where it is still armed, and tells the phase that was read:
    /// after Armed it never runs. After Running or Ran nothing changed: another hand runs it, or
    /// ran it.
    ///
    /// Step: one exchange of the node's callback word, armed to removed. A store would let a
    /// callback that another hand runs be taken for one that never ran. Needs: the hand holds the
    /// node, has read that its callback was registered, and doesn't run it. Afterwards: the hand
    /// has noted the phase. After Running or Ran it has seen the request on the source that the
    /// node hears. Hand 0 alone runs callbacks on the scope's source, so it doesn't answer Running
    /// there.
    pub fn withdraw_step(&self, hand: &mut Hand<P>, name: Name) -> CallbackPhase
        requires table { IsHandOf self.now hand.old }
        requires place { IsPlaceIn self.now name }
        requires needs { CanWithdraw (knows hand.old) name }
        ensures stays { Stays self.now hand.old hand.new }
        ensures withdrawn { IsWithdrawn self.now name result hand.old hand.new }
    {
        self.withdraw_at::<Brand>(&mut hand.seat, name)
    }

    fn withdraw_at<K: Subject>(&self, seat: &mut SeatOf<P>, name: Name) -> CallbackPhase
        requires table { IsHandOf self.now seat.old }
        requires place { IsPlaceIn self.now name }
        requires needs { CanWithdraw (knows seat.old) name }
        requires subject { K.aim ≡ aim_at self.now name }
        ensures stays { Stays self.now seat.old seat.new }
        ensures withdrawn { IsWithdrawn self.now name result seat.old seat.new }
    {
        let armed = callback_number(name.generation, CallbackPhase::Armed);
        let removed = callback_number(name.generation, CallbackPhase::Removed);
        let index = self.frame.layout.callback(name.block, name.node);
        let was = self
            .table
            .compare_exchange::<Withdraws<K>>(seat, index, armed, removed);
        says_phase(name.generation, was)
    }
}
