//! How a hand that requested a stop runs the callbacks of the source ([stopsource.inplace.mem]).
ghost use Rattle.table_steps.specs.Views.{IsHandOf, IsPlaceIn, Stays, knows};
ghost use Rattle.stop_calls.specs.Asides.{ComesBack, EndsScan};
ghost use Rattle.stop_calls.specs.Nestings.{Nests, RunsInside};
ghost use Rattle.exec_recv.specs.Actions.{Acts, ListsActions};
ghost use Rattle.exec_recv.specs.Over.{IsOver};

use crate::gate::{Gate, Point};
use home_items::Item;
use life_rules::{Name, SourceRef};
use op_slot::{Hand, OpTable};
use plan_rules::Node;
use plan_shape::Plan;
use std::sync::Wait;
use stop_calls::{Request, Scan, request_stop};

// What the callback of a node does: that of a delay wakes it, that of a `when_all` passes the
// request on to its children. No callback completes a node.
#[cycle(scanning)]
fn act<R: Wait, G: Gate>(
    rt: &R,
    plan: &Plan,
    table: &OpTable<Item>,
    hand: &mut Hand<Item>,
    place: Name,
    gate: &G,
)
    requires hand { IsHandOf table.now hand.old }
    requires over { IsOver table.now plan.now }
    requires place { IsPlaceIn table.now place }
    requires inside { RunsInside (knows hand.old) place }
    ensures stays { Stays table.now hand.old hand.new }
    ensures back { ComesBack hand.old.me hand.new.me }
    ensures acts { Acts table.now plan.now place hand.old.me hand.new.me }
{
    if place.node >= plan.size() {
        return;
    }
    match plan.node(place.node) {
        Node::Delay(_) => {
            table.rouse(hand, place);
        }
        Node::WhenAll { .. } => match request_stop(table, hand, SourceRef::Node(place)) {
            Request::Made(scan) => run_scan(rt, plan, table, hand, scan, gate),
            Request::Already => {}
        },
        _ => {}
    }
}

/// Runs each callback of the source to which the scan comes, on this hand, and seals the scan. A
/// delay that is parked is roused, and a `when_all` passes the request on to its own source, whose
/// callbacks run in the same way.
///
/// Step: those of the scan, of each callback's action, and of the end of its run; last that of the
/// seal.
/// Needs: the hand makes the scan, innermost, and each callback of it that it ran is over.
/// Afterwards: the hand makes the scan no more, and runs what it ran. Each callback whose run this
/// call began did what it does. Of a node's source it moved only words of places of the node's
/// block; of the scope's it didn't move the scope's own word. Beside requests that it has seen and
/// the list of its steps all that the hand knows and has in homes is as before.
#[cycle(scanning)]
pub fn run_scan<R: Wait, G: Gate>(
    rt: &R,
    plan: &Plan,
    table: &OpTable<Item>,
    hand: &mut Hand<Item>,
    mut scan: Scan,
    gate: &G,
)
    requires hand { IsHandOf table.now hand.old }
    requires over { IsOver table.now plan.now }
    requires nests { Nests table.now scan hand.old.me }
    ensures stays { Stays table.now hand.old hand.new }
    ensures ended { EndsScan hand.old.me hand.new.me scan.source }
    ensures acts { ListsActions table.now plan.now scan.source hand.old.me hand.new.me }
{
    while let Some(due) = scan.next(table, hand) {
        let place = due.place();
        gate.pass(Point::Run(place));
        act(rt, plan, table, hand, place, gate);
        due.finish(table, hand);
    }
    scan.seal(table, hand);
}
