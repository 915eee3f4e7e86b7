//! The calls that add a node without children.
ghost use Rattle.std.specs.Prelude.{◌≤◌, All, IsTrue};
ghost use Rattle.exec_value.specs.ErrorName.{is_error_name};
ghost use Rattle.exec_value.specs.Kinds.{IsConstant};
ghost use Rattle.plan_rules.specs.declared.node.Node.{Node};
ghost use Rattle.plan_shape.specs.Refusals.{Adds};

use crate::builder::PlanBuilder;
use crate::push::Built;
use exec_value::{Data, Txt};
use plan_rules::{Context, Node, Query};
use plan_shape::MOST_TURNS;

impl PlanBuilder {
    /// A sender of the plan's arguments.
    pub fn input(&mut self) -> Built
        ensures { Adds self.old self.new Node.Input result }
    {
        self.add(Node::Input)
    }

    /// `just` ([exec.just]) of ints, texts and rows.
    pub fn just(&mut self, values: Data) -> Built
        requires { All IsConstant values }
        ensures { Adds self.old self.new (Node.Just values) result }
    {
        self.add(Node::Just(values))
    }

    /// `just_error` ([exec.just]) of an error name.
    pub fn just_error(&mut self, error: Txt) -> Built
        requires { IsTrue (is_error_name error) }
        ensures { Adds self.old self.new (Node.JustError error) result }
    {
        self.add(Node::JustError(error))
    }

    /// `just_stopped` ([exec.just]).
    pub fn just_stopped(&mut self) -> Built
        ensures { Adds self.old self.new Node.JustStopped result }
    {
        self.add(Node::JustStopped)
    }

    /// `schedule` ([exec.schedule]) on a context.
    pub fn schedule(&mut self, on: Context) -> Built
        ensures { Adds self.old self.new (Node.Schedule on) result }
    {
        self.add(Node::Schedule(on))
    }

    /// A sender that completes after so many turns of the run loop, at most 1,000,000.
    pub fn delay(&mut self, turns: u32) -> Built
        requires { turns ≤ MOST_TURNS }
        ensures { Adds self.old self.new (Node.Delay turns) result }
    {
        self.add(Node::Delay(turns))
    }

    /// `read_env` ([exec.read.env]).
    pub fn read_env(&mut self, query: Query) -> Built
        ensures { Adds self.old self.new (Node.ReadEnv query) result }
    {
        self.add(Node::ReadEnv(query))
    }
}
