//! A table with one block and one hand: how it is opened, and how it is closed.
ghost use Rattle.std.specs.Prelude.{◌≡◌, ◌+◌, ◌<◌, [], IfOk, vec_capacity};
ghost use Rattle.table_steps.specs.Views.{AreFreshHands};
ghost use Rattle.run_workers.specs.Crews.{IsSpare};
ghost use Rattle.by_example.specs.OneHand.{IsForOne};

use exec_recv::Item;
use op_table::{Closing, Hand, OpTable};
use plan_shape::Plan;
use std::alloc::{AllocError, Global};

/// A table of one block over the plan, and its one hand. It fails only for want of memory.
pub(crate) fn open_one(
    alloc: Global,
    plan: &Plan,
) -> Result<(OpTable<Item>, Vec<Hand<Item>>), AllocError>
    ensures table { IfOk result (λ t. IsForOne plan.now t.0) }
    ensures hands { IfOk result (λ t. AreFreshHands t.0 1 t.1.items) }
{
    let kind = plan.settings().scope;
    let (table, hands) = OpTable::open(alloc, plan.tree(), plan, 1, 1, kind, 1)?;
    // Asked for what they say of every tree and of every plan.
    let _ = table.tree().size();
    let _ = plan.size();
    Ok((table, hands))
}

/// Closes the table, whose one hand came back. There is room for it in the list that it came from.
pub(crate) fn close_one(
    table: OpTable<Item>,
    mut hands: Vec<Hand<Item>>,
    hand: Hand<Item>,
) -> Closing<Item>
    requires one { table.frame.hands ≡ 1 }
    requires none { hands.items ≡ [] }
    requires room { 0 < vec_capacity hands }
    requires back { IsSpare table hand }
    ensures board { result.board ≡ table }
    ensures back { result.remains.free + result.remains.retired ≡ table.frame.layout.blocks }
{
    hands.push_reserved(hand);
    table.close_table(hands)
}
