//! How a callback's run ends, also by a removal from inside it ([stopcallback]).
ghost use Rattle.std.specs.Prelude.{◌≡◌};
ghost use Rattle.life_rules.specs.declared.words.CallbackPhase.TheVariants.{Running};
ghost use Rattle.table_steps.specs.Views.{IsHandOf, IsPlaceIn, aim_at, Stays, knows};
ghost use Rattle.table_steps.specs.Callbacks.{FindsCallback};
ghost use Rattle.table_steps.specs.RunEnds.{ends_run, removes_own, CanEndRun, CanWithdrawOwn, IsRunEnded, IsOwnWithdrawn};

use crate::plays::Subject;
use crate::table::{Hand, OpTable, SeatOf};
use atomic_table::Play;
use life_rules::{CallbackPhase, Name};
use std::marker::{Brand, PhantomData};
use table_rules::{Cargo, View};
use table_words::callback_number;

/// The store by which a run ends.
pub struct EndsRun<K> {
    subject: PhantomData<K>,
}

impl<P, E, K: Subject> Play<Option<P>, View<P, E>> for EndsRun<K> {
    ghost then = { λ step m found m'. FindsCallback K.aim.name Running
        (ends_run K.aim.tree K.aim.name) step.word found step.first m m' };
}

/// The store by which a callback is removed from inside it.
pub struct RemovesOwn<K> {
    subject: PhantomData<K>,
}

impl<P, E, K: Subject> Play<Option<P>, View<P, E>> for RemovesOwn<K> {
    ghost then = { λ step m found m'. FindsCallback K.aim.name Running
        (removes_own K.aim.tree K.aim.name) step.word found step.first m m' };
}

impl<P: Cargo> OpTable<P> {
    /// Ends the run of the place's callback.
    ///
    /// Step: one swap of the callback word, running to ran.
    /// Needs: the hand runs the place, and makes no scan of the node's own source.
    /// Afterwards: the hand no longer runs it, and its scan has passed the place.
    pub fn end_run_step(&self, hand: &mut Hand<P>, name: Name)
        requires table { IsHandOf self.now hand.old }
        requires place { IsPlaceIn self.now name }
        requires needs { CanEndRun (knows hand.old) name }
        ensures stays { Stays self.now hand.old hand.new }
        ensures ended { IsRunEnded self.now name hand.old hand.new }
    {
        self.end_run_at::<Brand>(&mut hand.seat, name);
        hand.runs.remove(name);
    }

    fn end_run_at<K: Subject>(&self, seat: &mut SeatOf<P>, name: Name)
        requires table { IsHandOf self.now seat.old }
        requires place { IsPlaceIn self.now name }
        requires needs { CanEndRun (knows seat.old) name }
        requires subject { K.aim ≡ aim_at self.now name }
        ensures stays { Stays self.now seat.old seat.new }
        ensures ended { IsRunEnded self.now name seat.old seat.new }
    {
        let ran = callback_number(name.generation, CallbackPhase::Ran);
        let index = self.frame.layout.callback(name.block, name.node);
        self.table.store::<EndsRun<K>>(seat, index, ran);
    }

    /// Removes the node's callback from inside it, which ends the run.
    ///
    /// Step: one swap of the callback word, running to removed.
    /// Needs: the hand runs the place and holds the node, and makes no scan of the node's own
    /// source. Afterwards: the hand no longer runs it, its scan has passed the place, and it has
    /// noted that the callback was removed.
    pub fn withdraw_own_step(&self, hand: &mut Hand<P>, name: Name)
        requires table { IsHandOf self.now hand.old }
        requires place { IsPlaceIn self.now name }
        requires needs { CanWithdrawOwn (knows hand.old) name }
        ensures stays { Stays self.now hand.old hand.new }
        ensures withdrawn { IsOwnWithdrawn self.now name hand.old hand.new }
    {
        self.withdraw_own_at::<Brand>(&mut hand.seat, name);
        hand.runs.remove(name);
    }

    fn withdraw_own_at<K: Subject>(&self, seat: &mut SeatOf<P>, name: Name)
        requires table { IsHandOf self.now seat.old }
        requires place { IsPlaceIn self.now name }
        requires needs { CanWithdrawOwn (knows seat.old) name }
        requires subject { K.aim ≡ aim_at self.now name }
        ensures stays { Stays self.now seat.old seat.new }
        ensures withdrawn { IsOwnWithdrawn self.now name seat.old seat.new }
    {
        let removed = callback_number(name.generation, CallbackPhase::Removed);
        let index = self.frame.layout.callback(name.block, name.node);
        self.table.store::<RemovesOwn<K>>(seat, index, removed);
    }
}
