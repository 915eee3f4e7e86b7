//! How a node waits for children.
ghost use Rattle.std.specs.Prelude.{◌≡◌};
ghost use Rattle.table_steps.specs.Views.{IsHandOf, IsPlaceIn, aim_at, Stays};
ghost use Rattle.table_steps.specs.Awaits.{CanAwait};
ghost use Rattle.table_steps.specs.Steps.{Awaited};
ghost use Rattle.op_table.specs.OnlyChild.{CanBeginChild, BeginsChild};

use crate::owing::add_children;
use crate::plays::{Awaits, Naming, Subject};
use crate::table::{Hand, OpTable, SeatOf};
use life_rules::{ControlWord, Name};
use std::marker::Brand;
use table_rules::Cargo;
use table_words::control_number;

impl<P: Cargo> OpTable<P> {
    /// Leaves the node, with the item in its home, until all of these children have reported.
    ///
    /// Step: one swap of the node's control word, held to busy with so many pending.
    /// Needs: the hand holds the node, makes no scan of its source, and has read that the children,
    /// different ones and at least one, haven't begun. The item in the node's home shows the node's
    /// start, fits, is no completion, and asks for no more children than are named. The homes of
    /// its children are empty.
    /// Afterwards: the hand owes the children's starts, with the node's start above them and what
    /// the item fixes for them, and has their homes. It has given back the node's and the other
    /// children's.
    pub fn await_children(&self, hand: &mut Hand<P>, name: Name, children: &[u32])
        requires table { IsHandOf self.now hand.old }
        requires place { IsPlaceIn self.now name }
        requires needs { CanAwait P.Cargo self.now.frame hand.old.me name children.now }
        ensures stays { Stays self.now hand.old hand.new }
        ensures awaits { Awaited self.now name hand.old hand.new P.Cargo children.now }
    {
        let _layout = self.frame.layout;
        self.await_at::<Brand, Brand>(&mut hand.seat, name, children);
        add_children(&mut hand.owed, name, children);
    }

    /// Leaves the node, with the item in its home, until this child has reported, and begins the
    /// child with the other item. So an only child comes and goes without being remembered as owed.
    ///
    /// Step: that of `await_children` for the child alone, one load of the child's control word, by
    /// which the hand turns to the child's home, and those of `begin`.
    /// Needs: as `await_children`. The item is no completion. The start that it shows goes on with
    /// the node's, has the table's key, and draws the lot that the item in the node's home fixes.
    /// Afterwards: the hand holds the child, and has its home with the item, and the empty homes of
    /// its children. It has given back the node's and the other children's.
    #[inline(always)]
    pub fn begin_child(&self, hand: &mut Hand<P>, name: Name, child: u32, item: P)
        requires table { IsHandOf self.now hand.old }
        requires place { IsPlaceIn self.now name }
        requires needs { CanBeginChild P.Cargo self.now.frame name child item hand.old.me }
        ensures stays { Stays self.now hand.old hand.new }
        ensures begins { BeginsChild P.Cargo self.now.frame name child item
            hand.old.me hand.new.me }
    {
        let _layout = self.frame.layout;
        let node = Name {
            node: child,
            ..name
        };
        self.await_at::<Brand, Brand>(&mut hand.seat, name, &[child]);
        self.fill_at(&mut hand.seat, node, item);
        self.renew::<Brand>(&mut hand.seat, node);
        self.begin_at::<Brand>(&mut hand.seat, node);
    }

    // Makes the node busy.
    fn await_at<K: Subject, J: Naming>(&self, seat: &mut SeatOf<P>, name: Name, children: &[u32])
        requires table { IsHandOf self.now seat.old }
        requires place { IsPlaceIn self.now name }
        requires needs { CanAwait P.Cargo self.now.frame seat.old.me name children.now }
        requires subject { K.aim ≡ aim_at self.now name }
        requires names { J.names ≡ children.now }
        ensures stays { Stays self.now seat.old seat.new }
        ensures awaits { Awaited self.now name seat.old seat.new P.Cargo children.now }
    {
        let index = self.frame.layout.control(name.block, name.node);
        let pending = children.len() as u32;
        let busy = control_number(name.generation, ControlWord::Busy(pending));
        self.table.store::<Awaits<K, J>>(seat, index, busy);
    }
}
