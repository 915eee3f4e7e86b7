//! The calls that add a node over a list of children.
ghost use Rattle.plan_rules.specs.declared.node.Node.{Node};
ghost use Rattle.plan_shape.specs.Conditions.{IsLawfulJob};
ghost use Rattle.plan_shape.specs.Refusals.{Adds};

use crate::builder::PlanBuilder;
use crate::push::Built;
use exec_job::Job;
use node_tree::NodeList;
use plan_rules::{Node, NodeId};

impl PlanBuilder {
    /// `when_all` ([exec.when.all]) of 2 to 64 children.
    pub fn when_all(&mut self, children: Vec<NodeId>) -> Built
        ensures { Adds self.old self.new (Node.WhenAll children.items) result }
    {
        let children = NodeList::from_vec(children);
        self.add(Node::WhenAll { children })
    }

    /// `let_value` ([exec.let]) with 1 to 16 bodies, of which the pick names one.
    pub fn let_value(&mut self, child: NodeId, pick: Job, bodies: Vec<NodeId>) -> Built
        requires { IsLawfulJob pick }
        ensures { Adds self.old self.new (Node.LetValue child pick bodies.items) result }
    {
        let bodies = NodeList::from_vec(bodies);
        self.add(Node::LetValue {
            child,
            pick,
            bodies,
        })
    }

    /// `let_error` ([exec.let]) with 1 to 16 bodies, of which the pick names one.
    pub fn let_error(&mut self, child: NodeId, pick: Job, bodies: Vec<NodeId>) -> Built
        requires { IsLawfulJob pick }
        ensures { Adds self.old self.new (Node.LetError child pick bodies.items) result }
    {
        let bodies = NodeList::from_vec(bodies);
        self.add(Node::LetError {
            child,
            pick,
            bodies,
        })
    }

    /// `let_stopped` ([exec.let]) with 1 to 16 bodies, of which the pick names one.
    pub fn let_stopped(&mut self, child: NodeId, pick: Job, bodies: Vec<NodeId>) -> Built
        requires { IsLawfulJob pick }
        ensures { Adds self.old self.new (Node.LetStopped child pick bodies.items) result }
    {
        let bodies = NodeList::from_vec(bodies);
        self.add(Node::LetStopped {
            child,
            pick,
            bodies,
        })
    }
}
