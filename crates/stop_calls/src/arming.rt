//! How a callback is registered ([stopcallback.inplace.cons]), and a source is asked
//! ([stopsource.inplace.mem]).
ghost use Rattle.std.specs.Prelude.{◌≡◌, ◌<◌, length, None, MatchOption};
ghost use Rattle.node_tree.specs.Tree.{nearest};
ghost use Rattle.life_rules.specs.States.{source_for};
ghost use Rattle.table_steps.specs.Views.{IsHandOf, IsPlaceIn, Stays};
ghost use Rattle.table_steps.specs.Callbacks.{CanArm};
ghost use Rattle.table_steps.specs.Sights.{IsSourceIn, IsLookedAt, StillAsked, AgreesWithTold};
ghost use Rattle.stop_calls.specs.Armings.{IsSourceAt, IsArmedSo};

use life_rules::{Name, SourceRef};
use node_tree::{NearestSource, Tree};
use op_slot::{Cargo, Hand, OpTable};

/// What was read of the source on which a callback was registered.
#[derive(Clone, Copy, Debug, PartialEq, Eq)]
pub enum Armed {
    /// No stop was requested yet: the hand that requests one comes to this callback.
    Quiet,
    /// A stop was requested: the callback may run or not, and the caller removes it.
    Asked,
}

/// Whether a stop is requested on the source: the bit of the word that was read. A request is never
/// taken back: true for a hand that has seen it, while the source can't go away under the hand, and
/// for one that was told of it when it came to hold a node that hears the source, or whose children
/// hear it.
///
/// Step: one load of the source's word.
/// Needs: a source of the table.
/// Afterwards: a request that was read is seen.
pub fn stop_requested<P: Cargo>(table: &OpTable<P>, hand: &mut Hand<P>, source: SourceRef) -> bool
    requires table { IsHandOf table.now hand.old }
    requires source { IsSourceIn table.now source }
    ensures stays { Stays table.now hand.old hand.new }
    ensures looked { IsLookedAt table.now source None result hand.old hand.new }
    ensures stands { StillAsked hand.old.me.0 source result }
    ensures told { AgreesWithTold table.now.frame.tree hand.old.me.0 source result }
{
    table.look_step(hand, source, None)
}

/// The source of the node's stop token ([exec.get.stop.token]), on which its callback is
/// registered: that of the nearest node above that has one, in the same block and generation, and
/// else the scope's. None where an unstoppable node comes first: then no stop reaches the node.
///
/// Needs: a node of the tree.
pub fn source_above(tree: &Tree, node: Name) -> Option<SourceRef>
    requires node { node.node < length tree.now }
    ensures nearest { result ≡ source_for node (nearest tree.now node.node) }
    ensures source { MatchOption result (Unit {0}) (IsSourceAt tree.now node.block) }
{
    match tree.nearest(node.node) {
        NearestSource::Scope => Some(SourceRef::Scope),
        NearestSource::Node(above) => Some(SourceRef::Node(Name {
            node: above,
            ..node
        })),
        NearestSource::Nowhere => None,
    }
}

/// Registers the node's callback on the source that the node hears, and then looks at that source:
/// a request that was made before the callback was registered doesn't come to it. Asked exactly
/// where that look read the request. The callback is still registered then.
///
/// Step: one swap of the node's callback word, never to armed; then one load of the source's word.
/// Needs: the hand holds the node, has read that its callback was never registered, and the node
/// hears a source.
/// Afterwards: the place is armed, and looked after. A request on that source that the hand had
/// seen, or was told of when it came to hold a node, still stands.
pub fn arm<P: Cargo>(table: &OpTable<P>, hand: &mut Hand<P>, node: Name) -> Armed
    requires table { IsHandOf table.now hand.old }
    requires place { IsPlaceIn table.now node }
    requires needs { CanArm table.now.frame.tree hand.old.me.0 node }
    ensures stays { Stays table.now hand.old hand.new }
    ensures armed { IsArmedSo table.now node result hand.old hand.new }
{
    table.arm_step(hand, node);
    let Some(source) = source_above(table.tree(), node) else {
        unreachable!()
    };
    if table.look_step(hand, source, Some(node)) {
        Armed::Asked
    } else {
        Armed::Quiet
    }
}
