//! How a node delivers its completion ([exec.recv]).
ghost use Rattle.std.specs.Prelude.{◌≡◌, true, false, []};
ghost use Rattle.node_tree.specs.Tree.{IsTree, is_root, is_child, has_source};
ghost use Rattle.table_steps.specs.Readings.{above_it};
ghost use Rattle.table_steps.specs.Views.{IsHandOf, IsPlaceIn, Stays, knows};
ghost use Rattle.table_steps.specs.Requests.{OwesFailed};
ghost use Rattle.op_slot.specs.Tends.{IsCalm};
ghost use Rattle.exec_recv.specs.Deliveries.{CanDeliver, HasStopped, HasTold, Delivers};
ghost use Rattle.exec_recv.specs.Over.{IsOver};
ghost use Rattle.exec_recv.specs.Sites.{plan_at, Steps};

use crate::gate::{Gate, Point};
use crate::next::Next;
use crate::scans::run_scan;
use crate::site::Site;
use home_items::Item;
use life_rules::Name;
use op_slot::{Cargo, Hand, OpTable};
use std::sync::Wait;
use stop_calls::{Failure, Request, fail_stop};
use table_steps::Report;

// The node's parent, where the node isn't the receiver node.
#[inline(always)]
fn parent_of(table: &OpTable<Item>, child: Name) -> Name
    requires place { IsPlaceIn table.now child }
    requires inner { is_root table.now.frame.tree child.node ≡ false }
    requires tree { IsTree table.now.frame.tree }
    ensures name { result ≡ above_it table.now.frame.tree child }
    ensures place { IsPlaceIn table.now result }
    ensures below { is_child table.now.frame.tree result.node child.node ≡ true }
{
    match table.tree().node(child.node).parent {
        Some(parent) => Name {
            node: parent,
            ..child
        },
        None => unreachable!(),
    }
}

// Marks the node's source as failed, and where no stop was requested of it yet runs the callbacks
// of its children.
#[inline(never)]
fn stop_siblings<R: Wait, G: Gate>(site: &Site<R, G>, hand: &mut Hand<Item>, node: Name)
    requires hand { IsHandOf site.now hand.old }
    requires over { IsOver site.now (plan_at site.now) }
    requires place { IsPlaceIn site.now node }
    requires source { has_source site.now.frame.tree node.node ≡ true }
    requires calm { IsCalm hand.old.me }
    requires unrun { (knows hand.old).runs ≡ [] }
    requires failed { OwesFailed ⟦<Item as Cargo>⟧ site.now.frame.tree (knows hand.old) node }
    ensures stays { Stays site.now hand.old hand.new }
    ensures stopped { HasStopped site.now node hand.old.me hand.new.me }
{
    let Failure { first: _, request } = fail_stop(site.table, hand, node);
    match request {
        Request::Made(scan) => {
            run_scan(site.rt, site.plan, site.table, hand, scan, site.gate);
        }
        Request::Already => {}
    }
}

// Where the child that was finished below this node failed, and the node has a stop source, marks
// it so.
#[inline(always)]
fn tell_failure<R: Wait, G: Gate>(
    site: &Site<R, G>,
    hand: &mut Hand<Item>,
    node: Name,
    failed: bool,
)
    requires hand { IsHandOf site.now hand.old }
    requires over { IsOver site.now (plan_at site.now) }
    requires place { IsPlaceIn site.now node }
    requires calm { IsCalm hand.old.me }
    requires unrun { (knows hand.old).runs ≡ [] }
    requires failed { failed ≡ true →
        OwesFailed ⟦<Item as Cargo>⟧ site.now.frame.tree (knows hand.old) node }
    ensures stays { Stays site.now hand.old hand.new }
    ensures told { HasTold site.now node failed hand.old.me hand.new.me }
{
    if failed && site.table.tree().node(node.node).source {
        stop_siblings(site, hand, node);
    }
}

/// Finishes the node, whose completion lies in its home, and reports it to its parent. Go(parent)
/// exactly where the report was the last. A child of a `when_all` that failed first requests a stop
/// of its siblings ([exec.when.all]): their callbacks run on this hand.
///
/// Step: that of `finish`, where a child of a `when_all` failed those of `fail_stop` and of the
/// scan, and that of `report`.
/// Needs: the hand holds the node, which isn't the receiver node, makes no scan and runs no
/// callback. The completion shows the node's start and fits; the homes of its children are empty,
/// and its callback isn't registered. It is told whether the node failed. Each start that the hand
/// owes can begin.
/// Afterwards: the hand holds the node's parent in its place, and may step it, or nothing. What
/// else it holds and owes is as before.
#[inline(always)]
pub fn deliver<R: Wait, G: Gate>(
    site: &Site<R, G>,
    hand: &mut Hand<Item>,
    name: Name,
    failed: bool,
) -> Next
    requires can { CanDeliver site.now name failed hand.old }
    ensures steps { Steps site.now name result hand.old hand.new }
    ensures delivers { Delivers site.now name result hand.old.me hand.new.me }
{
    let parent = parent_of(site.table, name);
    site.table.finish(hand, name);
    tell_failure(site, hand, parent, failed);
    site.pass(Point::Report(name));
    match site.table.report_below(hand, name, parent) {
        Report::Last => Next::Go(parent.node),
        Report::Others => Next::Rest,
    }
}
