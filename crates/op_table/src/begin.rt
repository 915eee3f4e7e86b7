//! How a node is begun.
ghost use Rattle.std.specs.Prelude.{◌≡◌};
ghost use Rattle.table_steps.specs.Views.{IsHandOf, IsPlaceIn, aim_at, Stays};
ghost use Rattle.table_steps.specs.Begins.{CanBegin, HasRenewed};
ghost use Rattle.table_steps.specs.Steps.{Renewed, Held, Begun};

use crate::plays::{Beginnings, Renewals, Subject};
use crate::table::{Hand, OpTable, SeatOf};
use life_rules::{Bits, ControlWord, Name};
use std::marker::Brand;
use table_rules::Cargo;
use table_words::{control_number, source_number};

impl<P: Cargo> OpTable<P> {
    /// Begins the node ([exec.opstate], `start`), with the start that the item in its home shows.
    ///
    /// Step: one swap of the node's control word, idle to held. Before it, where the node has a
    /// stop source, one swap of the source's word, which is clear, at the name's generation.
    /// Needs: the hand owes the start, and its home has an item, which is no completion. The start
    /// that the item shows goes on with the parent's, has the table's key, and draws the lot with
    /// which the node is owed.
    /// Afterwards: the hand holds the node, and has its home and the empty homes of its children.
    /// What lies in its home is no completion. The hand has noted the start of a root: where it
    /// comes to hold the root again, it knows that this is its start.
    #[inline(always)]
    pub fn begin(&self, hand: &mut Hand<P>, name: Name)
        requires table { IsHandOf self.now hand.old }
        requires place { IsPlaceIn self.now name }
        requires needs { CanBegin P.Cargo self.now.frame hand.old.me name }
        ensures stays { Stays self.now hand.old hand.new }
        ensures begun { Begun self.now name hand.old hand.new P.Cargo }
    {
        self.renew::<Brand>(&mut hand.seat, name);
        self.begin_at::<Brand>(&mut hand.seat, name);
        hand.owed.remove(name);
    }

    // Writes the source of a node that has one as clear, at the name's generation: no word of the
    // source was written at it yet, and a request only adds its bit.
    pub(crate) fn renew<K: Subject>(&self, seat: &mut SeatOf<P>, name: Name)
        requires table { IsHandOf self.now seat.old }
        requires place { IsPlaceIn self.now name }
        requires needs { CanBegin P.Cargo self.now.frame seat.old.me name }
        requires subject { K.aim ≡ aim_at self.now name }
        ensures stays { Stays self.now seat.old seat.new }
        ensures renewed { Renewed self.now name seat.old seat.new }
    {
        if self.frame.tree.node(name.node).source {
            let clear = source_number(
                name.generation,
                Bits {
                    requested: false,
                    failed: false,
                    scanned: false,
                },
            );
            let index = self.frame.layout.source(name.block, name.node);
            self.table.store::<Renewals<K>>(seat, index, clear);
        }
    }

    // Makes the node held, where its source is renewed.
    pub(crate) fn begin_at<K: Subject>(&self, seat: &mut SeatOf<P>, name: Name)
        requires table { IsHandOf self.now seat.old }
        requires place { IsPlaceIn self.now name }
        requires needs { CanBegin P.Cargo self.now.frame seat.old.me name }
        requires renewed { HasRenewed (aim_at self.now name) seat.old.me }
        requires subject { K.aim ≡ aim_at self.now name }
        ensures stays { Stays self.now seat.old seat.new }
        ensures begun { Held self.now name seat.old seat.new P.Cargo }
    {
        let held = control_number(name.generation, ControlWord::Busy(0));
        let index = self.frame.layout.control(name.block, name.node);
        self.table.store::<Beginnings<K>>(seat, index, held);
    }
}
