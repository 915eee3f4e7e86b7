//! How a builder ends: in a plan, or in the first cause why there is none.
ghost use Rattle.std.specs.Prelude.{◌≡◌, ◌+◌, ◌<◌, length, OnOk, IfOk};
ghost use Rattle.std.specs.List.{list_any};
ghost use Rattle.plan_shape.specs.Ancestors.{ancestors};
ghost use Rattle.plan_shape.specs.Blueprint.{AreSettings, IsPlan};
ghost use Rattle.plan_shape.specs.Finish.{bars_aheads, finish_fault, is_ahead, is_loose, is_misplaced, is_of_version_2, is_too_large, is_too_new, passes};
ghost use Rattle.plan_builder.specs.Finishing.{Finishes};
ghost use Rattle.plan_shape.specs.Least.{least};

use crate::builder::PlanBuilder;
use crate::named::node_at;
use node_tree::{Tree, TreeFault};
use plan_rules::{Node, NodeId, Settings};
use plan_shape::{BuildFault, MOST_FIRST_VERSION_NODES, Plan};

// Whether a node is an `ahead`.
fn is_ahead(nodes: &[Node], node: NodeId) -> bool
    ensures { result ≡ passes is_ahead nodes.now node }
{
    match node_at(nodes, node) {
        Some(found) => matches!(found, Node::Ahead { .. }),
        None => false,
    }
}

// Whether only plans of version 2 have a node.
fn is_of_version_2(nodes: &[Node], node: NodeId) -> bool
    ensures { result ≡ passes is_of_version_2 nodes.now node }
{
    match node_at(nodes, node) {
        Some(found) => matches!(found, Node::Unstoppable { .. } | Node::Ahead { .. }),
        None => false,
    }
}

// Whether no `ahead` may stand below a node.
fn bars_aheads(nodes: &[Node], node: NodeId) -> bool
    ensures { result ≡ passes bars_aheads nodes.now node }
{
    match node_at(nodes, node) {
        Some(found) => matches!(
            found,
            Node::WhenAll { .. } | Node::Unstoppable { .. } | Node::Ahead { .. }
        ),
        None => false,
    }
}

impl PlanBuilder {
    // The number of nodes.
    fn size(&self) -> u32
        ensures { result ≡ length self.now }
    {
        self.nodes.len() as u32
    }

    // The least node that has no parent and isn't the root.
    fn loose(&self, root: NodeId) -> Option<NodeId>
        ensures { result ≡ least (is_loose self.now root) (length self.now) }
    {
        (0..self.size()).find(|node| self.is_free(*node) && *node != root)
    }

    // Whether a node can't stand in a plan with these settings.
    fn is_too_new(&self, settings: &Settings, node: NodeId) -> bool
        ensures { result ≡ is_too_new settings.now self.now node }
    {
        settings.version == 1 && is_of_version_2(&self.nodes, node)
    }

    // The least of those nodes.
    fn too_new(&self, settings: &Settings) -> Option<NodeId>
        ensures { result ≡ least (is_too_new settings.now self.now) (length self.now) }
    {
        (0..self.size()).find(|node| self.is_too_new(settings, *node))
    }

    // Whether a node above this one bars `ahead` nodes.
    fn is_barred(&self, node: NodeId) -> bool
        ensures { result ≡ list_any (passes bars_aheads self.now) (ancestors self.now node) }
    {
        match self.parent(node) {
            None => false,
            Some(parent) => bars_aheads(&self.nodes, parent) || self.is_barred(parent),
        }
    }

    // Whether a node is an `ahead` where none may be.
    fn is_misplaced(&self, node: NodeId) -> bool
        ensures { result ≡ is_misplaced self.now node }
    {
        is_ahead(&self.nodes, node) && self.is_barred(node)
    }

    // The least of those nodes.
    fn misplaced(&self) -> Option<NodeId>
        ensures { result ≡ least (is_misplaced self.now) (length self.now) }
    {
        (0..self.size()).find(|node| self.is_misplaced(*node))
    }

    // Why there is no plan with this root.
    fn finish_fault(&self, root: NodeId, settings: &Settings) -> Option<BuildFault>
        ensures { result ≡ finish_fault self.now root settings.now }
    {
        if !self.is_free(root) {
            return Some(BuildFault::UsedChild(root));
        }
        if settings.version == 1 && self.nodes.len() > MOST_FIRST_VERSION_NODES {
            return Some(BuildFault::TooManyNodes);
        }
        if let Some(node) = self.loose(root) {
            return Some(BuildFault::Loose(node));
        }
        if let Some(node) = self.too_new(settings) {
            return Some(BuildFault::Version(node));
        }
        self.misplaced().map(BuildFault::Misplaced)
    }

    /// The plan of the builder's nodes under this root. `UsedChild` exactly where the root is no
    /// node without parent, `TooManyNodes` where the version is 1 and there are more than 256,
    /// parts counted, `Loose` where another node has no parent, `Version` where the version is 1
    /// and a node is `unstoppable` or `ahead`, and `Misplaced` where an `ahead` stands below a
    /// `when_all`, an `unstoppable` or another `ahead`. The first of these is answered, with the
    /// least such node.
    pub fn finish(self, root: NodeId, settings: Settings) -> Result<Plan, BuildFault>
        requires { AreSettings settings }
        ensures { Finishes self root settings result }
    {
        if let Some(fault) = self.finish_fault(root, &settings) {
            return Err(fault);
        }
        let nodes = self.tree_nodes()?;
        match Tree::open(*self.nodes.allocator(), nodes) {
            Ok(tree) => Ok(Plan::new(self.nodes, settings, tree)),
            Err(TreeFault::NoMemory) => Err(BuildFault::NoMemory),
            Err(TreeFault::Shape(_)) => unreachable!(),
        }
    }
}
