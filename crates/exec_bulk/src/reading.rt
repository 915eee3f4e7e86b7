//! How a bulk reads that its parts haven't begun.
ghost use Rattle.std.specs.Prelude.{◌≡◌, true, length};
ghost use Rattle.node_tree.specs.Tree.{is_child};
ghost use Rattle.step_parts.specs.Kids.{AreKids, KeepsIdle, KnowsAllIdle};
ghost use Rattle.step_parts.specs.Takes.{IsTaken, Keeps};
ghost use Rattle.table_steps.specs.Readings.{KnowsIdle};

use life_rules::Name;
use op_slot::Hand;
use plan_rules::NodeId;
use std::sync::Wait;
use std::thread::yield_now;
use step_parts::{Item, Site, Taken};

// Reads whether the child has begun, until it reads that it hasn't. That it has doesn't come; what
// is promised holds if this returns.
#[inline(always)]
fn read_idle<R: Wait, G>(site: &Site<R, G>, hand: &mut Hand<Item>, taken: &Taken, child: NodeId)
    requires taken { IsTaken site.now taken.now hand.old }
    requires child { is_child site.now.frame.tree taken.now.name.node child ≡ true }
    ensures keeps { Keeps site.now taken.now hand.old hand.new }
    ensures idles { KeepsIdle taken.now.name hand.old.me hand.new.me }
    ensures idle { KnowsIdle taken.now.name child hand.new.me }
{
    let node = Name {
        node: child,
        ..taken.name()
    };
    for _ in site.rt.forever() {
        if !site.table.has_begun(hand, node) {
            return;
        }
        yield_now();
    }
    unreachable!()
}

/// Reads of each of these children that it hasn't begun. That one has doesn't come; then this
/// waits, and what is promised holds if it returns.
///
/// Step: one load of each child's control word.
#[inline(always)]
pub(crate) fn read_all_idle<R: Wait, G>(
    site: &Site<R, G>,
    hand: &mut Hand<Item>,
    taken: &Taken,
    children: &[NodeId],
)
    requires taken { IsTaken site.now taken.now hand.old }
    requires kids { AreKids site.now taken.now.name children.now }
    ensures keeps { Keeps site.now taken.now hand.old hand.new }
    ensures idle { KnowsAllIdle taken.now.name children.now (length children.now) hand.new.me }
{
    for child in children {
        read_idle(site, hand, taken, *child);
    }
}
