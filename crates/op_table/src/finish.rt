//! How a node is finished.
ghost use Rattle.std.specs.Prelude.{◌≡◌};
ghost use Rattle.table_steps.specs.Views.{IsHandOf, IsPlaceIn, aim_at, Stays};
ghost use Rattle.table_steps.specs.Finishes.{CanFinish};
ghost use Rattle.table_steps.specs.Steps.{Finished};

use crate::plays::{Finishes, Subject};
use crate::table::{Hand, OpTable, SeatOf};
use life_rules::{ControlWord, Name};
use std::marker::Brand;
use table_rules::Cargo;
use table_words::control_number;

impl<P: Cargo> OpTable<P> {
    /// Finishes the node, with the completion in its home ([exec.recv.concepts]). The root may be
    /// left with any home, which its hand keeps.
    ///
    /// Step: one swap of the node's control word, held to done.
    /// Needs: the hand holds the node, makes no scan of its source, and has read that its callback
    /// never was, ran or was removed. The homes of its children are empty. The item in its home
    /// asks for no more children than the last await named. Below the root it is a completion that
    /// shows the node's start and fits.
    /// Afterwards: below the root the hand owes the node's report, and has given back its home and
    /// its children's. At the root it has the finished root and its home, and has given its
    /// children's back.
    pub fn finish(&self, hand: &mut Hand<P>, name: Name)
        requires table { IsHandOf self.now hand.old }
        requires place { IsPlaceIn self.now name }
        requires needs { CanFinish P.Cargo self.now.frame hand.old.me name }
        ensures stays { Stays self.now hand.old hand.new }
        ensures finished { Finished self.now name hand.old hand.new P.Cargo }
    {
        self.finish_at::<Brand>(&mut hand.seat, name);
    }

    // Makes the node done.
    fn finish_at<K: Subject>(&self, seat: &mut SeatOf<P>, name: Name)
        requires table { IsHandOf self.now seat.old }
        requires place { IsPlaceIn self.now name }
        requires needs { CanFinish P.Cargo self.now.frame seat.old.me name }
        requires subject { K.aim ≡ aim_at self.now name }
        ensures stays { Stays self.now seat.old seat.new }
        ensures finished { Finished self.now name seat.old seat.new P.Cargo }
    {
        let done = control_number(name.generation, ControlWord::Done);
        let index = self.frame.layout.control(name.block, name.node);
        self.table.store::<Finishes<K>>(seat, index, done);
    }
}
