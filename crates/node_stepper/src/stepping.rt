//! What steps the nodes of a plan, each by its kind.
ghost use Rattle.std.specs.Prelude.{◌≡◌};
ghost use Rattle.exec_recv.specs.Sites.{MayStep, Steps};
ghost use Rattle.node_stepper.specs.Does.{StepsNode};

use exec_adapt::{Adaptors, Factories, Receivers};
use exec_ahead::Aheads;
use exec_all::Alls;
use exec_bulk::{Bulks, Parts};
use exec_delay::Delays;
use exec_hop::{ContinuesOns, Schedules, StartsOns, Unstoppables};
use exec_let::Lets;
use exec_recv::{Gate, Item, Kind, Next, Point, Site, Stepper};
use life_rules::Name;
use op_slot::Hand;
use plan_rules::Node;
use plan_shape::Plan;
use std::marker::Model;
use std::sync::Wait;

/// What steps the nodes of a plan over hands. It is seen as the plan.
#[derive(Drop)]
pub struct NodeSteps<'a, G> {
    plan: &'a Plan,
    gate: &'a G,
}

impl<'a, G> Model for NodeSteps<'a, G> {
    ghost use Rattle.plan_shape.specs.Blueprint.{Blueprint};

    ghost Value = { Blueprint };

    ghost view = { λ s. s.plan.now };
}

impl<'a, G: Gate> NodeSteps<'a, G> {
    /// What steps the nodes of this plan, past this gate.
    pub fn of(plan: &'a Plan, gate: &'a G) -> NodeSteps<'a, G>
        ensures { result ≡ plan.now }
    {
        NodeSteps { plan, gate }
    }
}

impl<'a, G: Gate> Gate for NodeSteps<'a, G> {
    fn pass(&self, point: Point) {
        self.gate.pass(point);
    }
}

impl<'a, G: Gate> Stepper for NodeSteps<'a, G> {
    ghost use Rattle.node_stepper.specs.Does.{StepsNode};

    ghost plan = { λ plan. plan };

    ghost does = { StepsNode };

    fn nodes(&self) -> &Plan {
        self.plan
    }

    #[inline(always)]
    fn step<R: Wait>(site: &Site<R, NodeSteps<'a, G>>, hand: &mut Hand<Item>, name: Name) -> Next {
        step_node(site, hand, name)
    }
}

// Steps the node by its kind. Each arm returns: what a match yields would be copied once more.
#[inline(always)]
fn step_node<R: Wait, G: Gate>(site: &Site<R, G>, hand: &mut Hand<Item>, name: Name) -> Next
    requires may { MayStep site.now name hand.old }
    ensures steps { Steps site.now name result hand.old hand.new }
    ensures does { StepsNode site.now name result hand.old hand.new }
{
    if name.node >= site.plan.size() {
        return Receivers::step(site, hand, name);
    }
    match site.node(name) {
        Node::Input | Node::Just(_) | Node::JustError(_) => {
            return Factories::step(site, hand, name);
        }
        Node::JustStopped | Node::ReadEnv(_) => return Factories::step(site, hand, name),
        Node::Then { .. } | Node::UponError { .. } => return Adaptors::step(site, hand, name),
        Node::UponStopped { .. } => return Adaptors::step(site, hand, name),
        Node::StoppedAsOptional { .. } => return Adaptors::step(site, hand, name),
        Node::StoppedAsError { .. } => return Adaptors::step(site, hand, name),
        Node::Schedule(_) => return Schedules::step(site, hand, name),
        Node::StartsOn { .. } => return StartsOns::step(site, hand, name),
        Node::ContinuesOn { .. } => return ContinuesOns::step(site, hand, name),
        Node::Unstoppable { .. } => return Unstoppables::step(site, hand, name),
        Node::LetValue { .. } | Node::LetError { .. } => return Lets::step(site, hand, name),
        Node::LetStopped { .. } => return Lets::step(site, hand, name),
        Node::WhenAll { .. } => return Alls::step(site, hand, name),
        Node::Bulk { .. } => return Bulks::step(site, hand, name),
        Node::Part { .. } => return Parts::step(site, hand, name),
        Node::Delay(_) => return Delays::step(site, hand, name),
        Node::Ahead { .. } => return Aheads::step(site, hand, name),
    }
}
