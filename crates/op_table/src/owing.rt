//! The starts that a hand owes.
ghost use Rattle.std.specs.Prelude.{◌≡◌, [], IfSome, MatchOption};
ghost use Rattle.name_set.specs.Sets.{IsOfItsBlock};
ghost use Rattle.table_steps.specs.Views.{IsHandOf, IsPlaceIn, knows};
ghost use Rattle.table_steps.specs.Owing.{Owes};
ghost use Rattle.table_steps.specs.Remembers.{AreAdded, ArePlacesOf};
ghost use Rattle.op_table.specs.LowestOwed.{IsLowestOwed};

use crate::table::{Hand, OpTable, SeatOf};
use life_rules::Name;
use name_set::NameSet;
use table_rules::Cargo;

// Adds these children of the node.
pub(crate) fn add_children(owed: &mut NameSet, name: Name, children: &[u32])
    requires places { ArePlacesOf owed.old.layout name.block children.now }
    requires generation { IsOfItsBlock owed.old name }
    ensures layout { owed.new.layout ≡ owed.old.layout }
    ensures added { AreAdded name children.now owed.old owed.new }
{
    for child in children {
        owed.insert(Name {
            node: *child,
            ..name
        });
    }
}

impl<P: Cargo> Hand<P> {
    pub(crate) fn into_seat(self) -> SeatOf<P>
        ensures { result ≡ self }
    {
        let Hand { seat, owed, runs } = self;
        drop(owed);
        drop(runs);
        seat
    }
}

impl<P: Cargo> OpTable<P> {
    /// The node of the lowest place whose start this hand owes, so that children begin in their
    /// order. None exactly where it owes none.
    ///
    /// No step: the hand remembers what it owes.
    pub fn owed(&self, hand: &Hand<P>) -> Option<Name>
        requires table { IsHandOf self.now hand.now }
        ensures owes { MatchOption result ((knows hand.now).owed ≡ []) (Owes (knows hand.now)) }
        ensures lowest { IfSome result (IsLowestOwed self.now.frame.layout (knows hand.now)) }
        ensures place { MatchOption result (Unit {0}) (IsPlaceIn self.now) }
    {
        let _layout = self.frame.layout;
        hand.owed.first()
    }
}
