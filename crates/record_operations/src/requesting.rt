//! How a stop is requested of all operations.
ghost use Rattle.std.specs.Prelude.{◌≡◌, true};
ghost use Rattle.std.specs.Thread.{IsSync};
ghost use Rattle.life_rules.specs.StopSteps.{is_counting};
ghost use Rattle.table_steps.specs.Views.{IsHandOf, Stays, knows};
ghost use Rattle.exec_recv.specs.Over.{IsOver};
ghost use Rattle.node_walks.specs.Resting.{IsAtRest};
ghost use Rattle.record_operations.specs.Calls.{RequestsStop};

use count_scope::{Request, request_scope};
use exec_recv::{Gate, Item, run_scan};
use op_slot::{Hand, OpTable};
use plan_shape::Plan;
use std::sync::Wait;

/// Requests a stop of the scope, and runs the callbacks of its source on this hand
/// ([stopsource.inplace.mem]).
pub(crate) fn ask_scope<G: Gate, R: Wait + Sync>(
    rt: &R,
    plan: &Plan,
    table: &OpTable<Item>,
    hand: &mut Hand<Item>,
    gate: &G,
)
    requires sync { IsSync R.row }
    requires hand { IsHandOf table.now hand.old }
    requires over { IsOver table.now plan.now }
    requires first { (knows hand.old).number ≡ 0 }
    requires rests { IsAtRest (knows hand.old) }
    requires counting { is_counting table.now.frame.kind ≡ true }
    ensures stays { Stays table.now hand.old hand.new }
    ensures rests { IsAtRest (knows hand.new) }
    ensures asked { RequestsStop table.now hand.old.me hand.new.me }
{
    match request_scope(table, hand) {
        Request::Made(scan) => run_scan(rt, plan, table, hand, scan, gate),
        Request::Already => {}
    }
}
