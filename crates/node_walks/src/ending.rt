//! How an operation is ended.
ghost use Rattle.std.specs.Prelude.{◌≡◌, IfSome, IfNone};
ghost use Rattle.table_steps.specs.Views.{IsHandOf, Stays, knows};
ghost use Rattle.exec_recv.specs.Over.{IsOver};
ghost use Rattle.node_walks.specs.Resting.{IsAtRest};
ghost use Rattle.node_walks.specs.Completes.{IsListed, EndsRoot};
ghost use Rattle.node_walks.specs.Emptied.{WasNotReady};

use crate::completing::{Ended, completed};
use crate::emptying::empty_root;
use exec_recv::{Gate, Item};
use op_slot::{Block, Hand, OpTable};

/// Ends the operation in this block, and gives the block back. None only where the word of the
/// block's root that was read didn't say that it is ready in the loop.
///
/// Step: that of `take`, and where it took the root those of `take_home`, `finish` and `release`,
/// before which the gate is passed. It wants no memory.
/// Needs: hand 0, which is at rest, and has noted the start of the block's root.
/// Afterwards: the hand is at rest, and has noted that start no more. The environment shows it.
/// What the operation completed with is want of memory, or allowed for that start, and is of its
/// number. Where it saw a stop request, the hand made the scope's. All else that its view says is
/// as before, but for requests that it has seen and the list of its steps.
#[inline(always)]
pub fn end_root<G: Gate>(
    table: &OpTable<Item>,
    hand: &mut Hand<Item>,
    block: Block,
    gate: &G,
) -> Option<Ended>
    requires hand { IsHandOf table.now hand.old }
    requires over { IsOver table.now table.now.frame.over.value }
    requires first { (knows hand.old).number ≡ 0 }
    requires rests { IsAtRest (knows hand.old) }
    requires listed { IsListed table.now block hand.old.me }
    ensures stays { Stays table.now hand.old hand.new }
    ensures rests { IsAtRest (knows hand.new) }
    ensures none { IfNone result (WasNotReady table.now block hand.old.me hand.new.me) }
    ensures ends { IfSome result (EndsRoot table.now block hand.old.me hand.new.me) }
{
    let item = empty_root(table, hand, block, gate)?;
    Some(completed(item))
}
