//! Where a step leaves its node.
ghost use Rattle.std.specs.Prelude.{◌≡◌};

use node_tree::Context;
use plan_rules::NodeId;

/// Where a step of a node leaves it, and with which node the hand goes on.
#[derive(Clone, Copy, Debug, PartialEq, Eq)]
pub enum Next {
    /// The hand holds this node of the same operation now, and steps it next: the parent of the
    /// node, whose last child was reported, or its only child, which has begun.
    Go(NodeId),
    /// The hand holds nothing in place of the node, which is done, or waits for its children.
    Rest,
    /// The node is ready in the loop: a hand takes it there.
    InLoop,
    /// The node is ready in the pool: a hand takes it there.
    InPool,
    /// The node is parked, until its stop callback or its time rouses it.
    Parked,
}

impl Next {
    ghost use Rattle.table_steps.specs.Takes.{resting_in};
    ghost use Rattle.exec_recv.specs.Nexts.{next_for};

    /// The node is ready in this context.
    #[inline(always)]
    pub fn ready_in(on: Context) -> Next
        ensures { result ≡ next_for (resting_in on) }
    {
        match on {
            Context::Loop => Next::InLoop,
            Context::Pool => Next::InPool,
        }
    }
}
