//! Where the steps of nodes are made.
ghost use Rattle.std.specs.Prelude.{◌≡◌, true, is_some, Some};
ghost use Rattle.exec_recv.specs.Sites.{node_at};

use crate::gate::{Gate, Point};
use home_items::Item;
use life_rules::Name;
use op_slot::OpTable;
use plan_rules::Node;
use plan_shape::Plan;
use std::alloc::Global;
use std::marker::Model;

/// Where the steps of nodes are made: a table over a plan, what a step runs on, and the gate that
/// it passes. It is seen as the table.
#[derive(Drop)]
pub struct Site<'a, R, G> {
    pub rt: &'a R,
    pub alloc: Global,
    pub plan: &'a Plan,
    pub table: &'a OpTable<Item>,
    pub gate: &'a G,
}

impl<'a, R, G> Model for Site<'a, R, G> {
    ghost use Rattle.std.specs.Prelude.{◌≡◌};
    ghost use Rattle.plan_shape.specs.Blueprint.{Blueprint};
    ghost use Rattle.table_steps.specs.Views.{Board};

    ghost Value = { Board Blueprint };

    ghost view = { λ s. s.table.now };

    ghost invariant = { λ s. s.plan.now ≡ s.table.now.frame.over.value };
}

impl<'a, R, G> Site<'a, R, G> {
    /// The node of this name, which isn't the receiver node.
    #[inline(always)]
    pub fn node(&self, name: Name) -> &'a Node
        requires { is_some (node_at self.now name) ≡ true }
        ensures { node_at self.now name ≡ Some result.now }
    {
        self.plan.node(name.node)
    }
}

impl<'a, R, G: Gate> Site<'a, R, G> {
    /// Passes the gate.
    #[inline(always)]
    pub fn pass(&self, point: Point) {
        self.gate.pass(point);
    }
}
