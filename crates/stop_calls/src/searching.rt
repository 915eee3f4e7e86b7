//! How the next place of a scan is found. No step: the tree says which places hear a source.
ghost use Rattle.std.specs.Prelude.{◌≡◌, ◌≤◌, ◌<◌, length};
ghost use Rattle.table_steps.specs.ScanOrders.{hears};
ghost use Rattle.stop_calls.specs.Searches.{may_hear, IsHeardIn, IsNextPlace};

use crate::scanning::Scan;
use life_rules::{Place, SourceRef};
use node_tree::{NearestSource, Tree};

// A callback of the place is registered on this source.
fn hears(tree: &Tree, source: SourceRef, block: u32, node: u32) -> bool
    requires { node < length tree.now }
    ensures { result ≡ hears tree.now source block node }
{
    match (source, tree.nearest(node)) {
        (SourceRef::Scope, NearestSource::Scope) => true,
        (SourceRef::Node(of), NearestSource::Node(above)) => block == of.block && above == of.node,
        _ => false,
    }
}

// Some place of the block may hear the source.
fn may_hear(source: SourceRef, block: u32) -> bool
    ensures { result ≡ may_hear source block }
{
    match source {
        SourceRef::Scope => true,
        SourceRef::Node(of) => block == of.block,
    }
}

// The first place of the block, from this node on, that hears the source.
fn heard_in(tree: &Tree, source: SourceRef, block: u32, from: u32) -> Option<u32>
    ensures { IsHeardIn tree.now source block from result }
{
    if !may_hear(source, block) {
        return None;
    }
    for node in from..tree.size() {
        if hears(tree, source, block, node) {
            return Some(node);
        }
    }
    None
}

// The first place from where the scan goes on that hears its source.
pub(crate) fn next_place(scan: &Scan, tree: &Tree, blocks: u32) -> Option<Place>
    requires { scan.now.node ≤ length tree.now }
    ensures { IsNextPlace tree.now blocks scan.now result }
{
    for block in scan.block..blocks {
        let from = if block == scan.block { scan.node } else { 0 };
        if let Some(node) = heard_in(tree, scan.source, block, from) {
            return Some(Place { block, node });
        }
    }
    None
}
