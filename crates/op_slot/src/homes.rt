//! How an item is put into a home, and taken out.
ghost use Rattle.table_steps.specs.Views.{IsHandOf, IsPlaceIn, Stays};
ghost use Rattle.table_steps.specs.Swaps.{HasHome};
ghost use Rattle.op_slot.specs.Puts.{CanPut, IsPut, IsTakenOut, BeginsThen};

use life_rules::Name;
use op_table::{Cargo, Hand, OpTable};

/// Puts the item into the node's home.
///
/// Step: one load of the node's control word, by which the hand turns to the home. The move itself
/// is no step: no other hand sees a home that this hand has.
/// Needs: the hand has the home, which is empty. It holds the node, and the item shows the node's
/// start; or it owes the node's start, and the item is no completion, and the start that it shows
/// goes on with the parent's, has the table's key and draws the lot with which the node is owed.
/// The item fits the node.
/// Afterwards: the item lies in the home. Where the hand owes the node's start, it can begin it
/// now.
#[inline(always)]
pub fn put_home<P: Cargo>(table: &OpTable<P>, hand: &mut Hand<P>, name: Name, item: P)
    requires table { IsHandOf table.now hand.old }
    requires place { IsPlaceIn table.now name }
    requires needs { CanPut P.Cargo table.now.frame hand.old.me name item }
    ensures stays { Stays table.now hand.old hand.new }
    ensures put { IsPut table.now.frame name item hand.old.me hand.new.me }
    ensures begins { BeginsThen P.Cargo table.now.frame name item hand.old.me hand.new.me }
{
    match hand.home_mut(table, name) {
        Some(home) => {
            // so that nothing is dropped
            if home.is_some() {
                unreachable!()
            }
            *home = Some(item);
        }
        None => unreachable!(),
    }
}

/// Takes what lies in the node's home, which is empty afterwards. None exactly where it was empty.
///
/// Step: one load of the node's control word, by which the hand turns to the home. The move itself
/// is no step: no other hand sees a home that this hand has.
/// Needs: the hand has the home: it holds the node or its parent, owes the node's start, or has the
/// finished root.
/// Afterwards: the answer is what lay in the home.
#[inline(always)]
pub fn take_home<P: Cargo>(table: &OpTable<P>, hand: &mut Hand<P>, name: Name) -> Option<P>
    requires table { IsHandOf table.now hand.old }
    requires place { IsPlaceIn table.now name }
    requires home { HasHome table.now.frame.layout hand.old.me name }
    ensures stays { Stays table.now hand.old hand.new }
    ensures taken { IsTakenOut table.now.frame name result hand.old.me hand.new.me }
{
    match hand.home_mut(table, name) {
        Some(home) => home.take(),
        None => unreachable!(),
    }
}
