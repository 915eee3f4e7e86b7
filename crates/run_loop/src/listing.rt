//! What a loop lists when it is opened: the plan's delays, and for how many there must be room.
ghost use Rattle.std.specs.Prelude.{◌≡◌, ◌≤◌, IfOk, length};
ghost use Rattle.timer_wheel.specs.declared.limits.TheConstants.{MOST_PLACES};
ghost use Rattle.run_loop.specs.DelayNodes.{AreDelaysOf, place_count};

use crate::delay_node::DelayNode;
use exec_recv::Item;
use op_slot::OpTable;
use plan_rules::Node;
use plan_shape::Plan;
use std::alloc::{AllocError, Global};

/// The delays of the plan.
pub fn delays_of(alloc: Global, plan: &Plan) -> Result<Vec<DelayNode>, AllocError>
    ensures { IfOk result (λ list. AreDelaysOf plan.now.nodes list.items) }
{
    let mut list = Vec::new(alloc);
    for node in 0..plan.size() {
        match plan.node(node) {
            Node::Delay(turns) => list.push(DelayNode {
                node,
                turns: *turns,
            })?,
            _ => {}
        }
    }
    Ok(list)
}

/// For how many parked delays there must be room, where the plan has these: for one in each place
/// of the table, and where it has none for one, which is the least that a list takes.
pub fn room_of(table: &OpTable<Item>, delays: &[DelayNode]) -> u32
    ensures some { 1 ≤ result }
    ensures few { result ≤ MOST_PLACES }
    ensures all { 1 ≤ length delays.now → place_count table.now ≤ result }
{
    if delays.is_empty() {
        return 1;
    }
    (table.blocks() * table.tree().size()).max(1)
}
