//! The causes for which a builder refuses a node, tested in their order.
ghost use Rattle.std.specs.Prelude.{◌≡◌, ◌++◌, ◌<◌, ◌≤◌, All, List, length, map, max, fold, nat_eq, count_by};
ghost use Rattle.plan_shape.specs.Parents.{is_free};
ghost use Rattle.plan_shape.specs.Depths.{depth_of};
ghost use Rattle.plan_shape.specs.Refusals.{is_used, used_child};
ghost use Rattle.plan_builder.specs.Adding.{AllowsAt};

use crate::builder::PlanBuilder;
use plan_rules::NodeId;
use plan_shape::{BuildFault, MOST_DEPTH, MOST_PLAN_NODES};

// How often a node is named.
fn count(named: &[NodeId], node: NodeId) -> usize
    ensures { result ≡ count_by (nat_eq node) named.now }
{
    named.iter().filter(|other| node == **other).count()
}

impl PlanBuilder {
    /// Whether this is a node that has no parent yet.
    pub(crate) fn is_free(&self, node: NodeId) -> bool
        ensures { result ≡ is_free self.now node }
    {
        match self.positions.get(node as usize) {
            None => false,
            Some(position) => position.parent.is_none(),
        }
    }

    // Whether a child can't be taken. The children are named in two lists, one after the other.
    fn is_used(&self, child: NodeId, front: &[NodeId], back: &[NodeId]) -> bool
        ensures { result ≡ is_used self.now (front.now ++ back.now) child }
    {
        !self.is_free(child) || count(front, child) + count(back, child) > 1
    }

    // The first child that can't be taken.
    fn used_child(&self, front: &[NodeId], back: &[NodeId]) -> Option<NodeId>
        ensures { result ≡ used_child self.now (front.now ++ back.now) }
    {
        front
            .iter()
            .chain(back)
            .copied()
            .find(|child| self.is_used(*child, front, back))
    }

    // The most nodes on a path from one of these children down to a leaf.
    fn deepest(&self, children: &[NodeId]) -> u32
        requires { All (λ child. child < length self.now) children.now }
        ensures deepest { result ≡ fold max 0 (map (depth_of self.now) children.now) }
        ensures bound { result ≤ MOST_DEPTH }
    {
        let mut deepest: u32 = 0;
        for child in children {
            deepest = deepest.max(self.positions[*child as usize].depth);
        }
        deepest
    }

    /// The depth of a new node with these children and so many parts, or why there is none.
    pub(crate) fn check(
        &self,
        front: &[NodeId],
        back: &[NodeId],
        parts: u32,
    ) -> Result<u32, BuildFault>
        ensures { AllowsAt self.now (front.now ++ back.now) parts result }
    {
        if let Some(child) = self.used_child(front, back) {
            return Err(BuildFault::UsedChild(child));
        }
        if self.nodes.len() + parts as usize + 1 > MOST_PLAN_NODES {
            return Err(BuildFault::TooManyNodes);
        }
        let depth = 1 + self.deepest(front).max(self.deepest(back));
        if depth > MOST_DEPTH {
            return Err(BuildFault::TooDeep);
        }
        Ok(depth)
    }
}
