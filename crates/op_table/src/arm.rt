//! How a callback is registered ([stopcallback]).
ghost use Rattle.std.specs.Prelude.{◌≡◌};
ghost use Rattle.life_rules.specs.declared.words.CallbackPhase.TheVariants.{Never};
ghost use Rattle.table_steps.specs.Views.{IsHandOf, IsPlaceIn, aim_at, Stays, knows};
ghost use Rattle.table_steps.specs.Callbacks.{CanArm, IsArmed, FindsCallback, arms};

use crate::plays::Subject;
use crate::table::{Hand, OpTable, SeatOf};
use atomic_table::Play;
use life_rules::{CallbackPhase, Name};
use std::marker::{Brand, PhantomData};
use table_rules::{Cargo, View};
use table_words::callback_number;

/// The store by which a callback is registered.
pub struct Arms<K> {
    subject: PhantomData<K>,
}

impl<P, E, K: Subject> Play<Option<P>, View<P, E>> for Arms<K> {
    ghost then = { λ step m found m'. FindsCallback K.aim.name Never
        (arms K.aim.name) step.word found step.first m m' };
}

impl<P: Cargo> OpTable<P> {
    /// Registers the node's callback on the node's nearest source. A request may have been made
    /// before: so a look at that source has to follow.
    ///
    /// Step: one swap of the node's callback word, never to armed.
    /// Needs: the hand holds the node, has read that its callback was never registered, and the
    /// node hears a source. Afterwards: the place is armed, and not looked after yet.
    pub fn arm_step(&self, hand: &mut Hand<P>, name: Name)
        requires table { IsHandOf self.now hand.old }
        requires place { IsPlaceIn self.now name }
        requires needs { CanArm self.now.frame.tree (knows hand.old) name }
        ensures stays { Stays self.now hand.old hand.new }
        ensures armed { IsArmed self.now name hand.old hand.new }
    {
        self.arm_at::<Brand>(&mut hand.seat, name);
    }

    fn arm_at<K: Subject>(&self, seat: &mut SeatOf<P>, name: Name)
        requires table { IsHandOf self.now seat.old }
        requires place { IsPlaceIn self.now name }
        requires needs { CanArm self.now.frame.tree (knows seat.old) name }
        requires subject { K.aim ≡ aim_at self.now name }
        ensures stays { Stays self.now seat.old seat.new }
        ensures armed { IsArmed self.now name seat.old seat.new }
    {
        let armed = callback_number(name.generation, CallbackPhase::Armed);
        let index = self.frame.layout.callback(name.block, name.node);
        self.table.store::<Arms<K>>(seat, index, armed);
    }
}
