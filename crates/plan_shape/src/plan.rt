//! A plan: a sender expression with its settings, and its tree.
ghost use Rattle.std.specs.Prelude.{◌≡◌, ◌<◌, ◌≤◌, Some, length, slice_get};
ghost use Rattle.plan_shape.specs.Blueprint.{Blueprint, IsPlan};
ghost use Rattle.plan_shape.specs.PlanTree.{tree_of};

use crate::limits::MOST_PLAN_NODES;
use node_tree::Tree;
use plan_rules::{Node, NodeId, Settings};
use std::marker::Model;

/// A plan, seen as its nodes and its settings. The last node is the root.
#[derive(Debug, Drop)]
pub struct Plan {
    nodes: Vec<Node>,
    settings: Settings,
    tree: Tree,
}

impl Model for Plan {
    ghost use Rattle.plan_shape.specs.Blueprint.{Blueprint};

    ghost Value = { Blueprint };

    ghost use Rattle.plan_shape.specs.PlanTree.{IsPlanWith};

    ghost view = { λ plan. record { nodes = plan.nodes.items; settings = plan.settings } };

    ghost invariant = { λ plan.
        IsPlanWith (record { nodes = plan.nodes.items; settings = plan.settings }) plan.tree };
}

impl Plan {
    /// The plan of these nodes and settings, whose tree this is.
    pub fn new(nodes: Vec<Node>, settings: Settings, tree: Tree) -> Plan
        requires plan { IsPlan (record { nodes = nodes.items; settings = settings }) }
        requires tree { tree ≡ tree_of nodes.items }
        ensures { result ≡ record { nodes = nodes.items; settings = settings } }
    {
        Plan {
            nodes,
            settings,
            tree,
        }
    }

    /// The plan's tree. Its last node is the receiver node, under which the root stands, and so
    /// does the first child of each `ahead`.
    pub fn tree(&self) -> &Tree
        ensures { result.now ≡ tree_of self.now.nodes }
    {
        &self.tree
    }

    /// The plan's settings.
    pub fn settings(&self) -> &Settings
        ensures { result.now ≡ self.now.settings }
    {
        &self.settings
    }

    /// The number of nodes, which is the receiver node's number.
    pub fn size(&self) -> u32
        ensures size { result ≡ length self.now.nodes }
        ensures bound { result ≤ MOST_PLAN_NODES }
        ensures plan { IsPlan self.now }
    {
        self.nodes.len() as u32
    }

    /// The node of this number.
    pub fn node(&self, node: NodeId) -> &Node
        requires { node < length self.now.nodes }
        ensures { slice_get self.now.nodes node ≡ Some result.now }
    {
        &self.nodes[node as usize]
    }
}
