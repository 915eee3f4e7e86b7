//! A builder of plans: a list of nodes, to which each call adds one.
ghost use Rattle.std.specs.Prelude.{◌≡◌, []};

use crate::position::Position;
use plan_rules::Node;
use std::alloc::Global;
use std::marker::Model;

/// A builder of plans, seen as the list of its nodes.
#[derive(Debug, Drop)]
pub struct PlanBuilder {
    pub(crate) nodes: Vec<Node>,
    /// Where each node stands, so that no search is made for it.
    pub(crate) positions: Vec<Position>,
}

impl Model for PlanBuilder {
    ghost use Rattle.std.specs.Prelude.{List};
    ghost use Rattle.plan_rules.specs.declared.node.Node.{Node};
    ghost use Rattle.plan_builder.specs.Positions.{IsForestWith};

    ghost Value = { List Node };

    ghost view = { λ b. b.nodes.items };

    ghost invariant = { λ b. IsForestWith b.nodes.items b.positions.items };
}

impl PlanBuilder {
    /// A builder without nodes. It takes no memory.
    pub fn new(alloc: Global) -> PlanBuilder
        ensures { result ≡ [] }
    {
        PlanBuilder {
            nodes: Vec::new(alloc),
            positions: Vec::new(alloc),
        }
    }
}
