//! What the receiver node finds in the homes of its children: the plan's root and the first child
//! of each `ahead`.
ghost use Rattle.std.specs.Prelude.{◌≡◌, ◌-◌, length, None};
ghost use Rattle.exec_recv.specs.Sites.{node_at};
ghost use Rattle.exec_adapt.specs.Ends.{MayReceive};
ghost use Rattle.exec_adapt.specs.Tops.{spawned_by, EmptiesAll};
ghost use Rattle.step_parts.specs.Takes.{IsOpen, TakesBack};

use op_slot::Hand;
use plan_rules::{Node, NodeId};
use plan_shape::Plan;
use step_parts::{Item, Parcel, Site, Taken, take_child};

// The plan's root.
fn root_of(plan: &Plan) -> NodeId
    ensures { result ≡ length plan.now.nodes - 1 }
{
    plan.size() - 1
}

// The first child of an `ahead`, which runs as an operation of its own.
fn spawned_by(node: &Node) -> Option<NodeId>
    ensures { result ≡ spawned_by node.now }
{
    match node {
        Node::Ahead { first, .. } => Some(*first),
        _ => None,
    }
}

// Takes what lies in the homes of all children of the receiver node. But for the one that its start
// names that is nothing: no other operation runs in its block.
#[inline(never)]
fn empty_others<R, G>(site: &Site<R, G>, hand: &mut Hand<Item>, taken: &Taken)
    requires root { node_at site.now taken.now.name ≡ None }
    requires opened { IsOpen site.now taken.now hand.old }
    ensures { EmptiesAll site.now taken.now hand.old hand.new }
{
    drop(take_child(site, hand, taken, root_of(site.plan)));
    for number in 0..site.plan.size() {
        match spawned_by(site.plan.node(number)) {
            Some(first) => drop(take_child(site, hand, taken, first)),
            None => {}
        }
    }
}

/// Takes what the child has completed with that the receiver node's start names, or nothing.
///
/// Step: those of `take_child` for each child of the node.
/// Afterwards: the homes of the node's children are empty.
#[inline(always)]
pub(crate) fn take_top<R, G>(
    site: &Site<R, G>,
    hand: &mut Hand<Item>,
    taken: &Taken,
    child: NodeId,
) -> Option<Parcel>
    requires may { MayReceive site.now taken.now child hand.old }
    ensures { TakesBack site.now taken.now child result hand.old hand.new }
{
    let below = take_child(site, hand, taken, child);
    if site.plan.settings().version <= 1 {
        // it has no `ahead`
        return below;
    }
    empty_others(site, hand, taken);
    below
}
