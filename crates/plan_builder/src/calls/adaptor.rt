//! The calls that add a node over one child or two.
ghost use Rattle.std.specs.Prelude.{IsTrue};
ghost use Rattle.exec_value.specs.ErrorName.{is_error_name};
ghost use Rattle.exec_job.specs.Takes.{is_element};
ghost use Rattle.plan_rules.specs.declared.node.Node.{Node};
ghost use Rattle.plan_rules.specs.Images.{has_maybe};
ghost use Rattle.plan_shape.specs.Conditions.{IsLawfulJob};
ghost use Rattle.plan_shape.specs.Refusals.{Adds};

use crate::builder::PlanBuilder;
use crate::push::Built;
use exec_job::Job;
use exec_value::{Kind, Txt};
use plan_rules::{Context, Node, NodeId};

impl PlanBuilder {
    /// `then` ([exec.then]): the job is applied to a value.
    pub fn then(&mut self, child: NodeId, job: Job) -> Built
        requires { IsLawfulJob job }
        ensures { Adds self.old self.new (Node.Then child job) result }
    {
        self.add(Node::Then { child, job })
    }

    /// `upon_error` ([exec.then]): the job is applied to an error's name.
    pub fn upon_error(&mut self, child: NodeId, job: Job) -> Built
        requires { IsLawfulJob job }
        ensures { Adds self.old self.new (Node.UponError child job) result }
    {
        self.add(Node::UponError { child, job })
    }

    /// `upon_stopped` ([exec.then]): the job is applied to no data.
    pub fn upon_stopped(&mut self, child: NodeId, job: Job) -> Built
        requires { IsLawfulJob job }
        ensures { Adds self.old self.new (Node.UponStopped child job) result }
    {
        self.add(Node::UponStopped { child, job })
    }

    /// `starts_on` ([exec.starts.on]).
    pub fn starts_on(&mut self, on: Context, child: NodeId) -> Built
        ensures { Adds self.old self.new (Node.StartsOn on child) result }
    {
        self.add(Node::StartsOn { on, child })
    }

    /// `continues_on` ([exec.continues.on]).
    pub fn continues_on(&mut self, child: NodeId, on: Context) -> Built
        ensures { Adds self.old self.new (Node.ContinuesOn child on) result }
    {
        self.add(Node::ContinuesOn { child, on })
    }

    /// `stopped_as_optional` ([exec.stopped.opt]) of a value that is an int or a text.
    pub fn stopped_as_optional(&mut self, child: NodeId, of: Kind) -> Built
        requires { IsTrue (has_maybe of) }
        ensures { Adds self.old self.new (Node.StoppedAsOptional child of) result }
    {
        self.add(Node::StoppedAsOptional { child, of })
    }

    /// `stopped_as_error` ([exec.stopped.err]) with an error name.
    pub fn stopped_as_error(&mut self, child: NodeId, error: Txt) -> Built
        requires { IsTrue (is_error_name error) }
        ensures { Adds self.old self.new (Node.StoppedAsError child error) result }
    {
        self.add(Node::StoppedAsError { child, error })
    }

    /// `bulk` ([exec.bulk]) over the elements of one row, by an element job. Its eight parts get
    /// the numbers before its own.
    pub fn bulk(&mut self, child: NodeId, job: Job) -> Built
        requires { IsTrue (is_element job) }
        ensures { Adds self.old self.new (Node.Bulk child job) result }
    {
        self.add(Node::Bulk { child, job })
    }

    /// A sender whose child no stop request reaches. Only plans of version 2 have it.
    pub fn unstoppable(&mut self, child: NodeId) -> Built
        ensures { Adds self.old self.new (Node.Unstoppable child) result }
    {
        self.add(Node::Unstoppable { child })
    }

    /// Spawns the first sender in the scope (P3149, `spawn_future`), runs the second, and joins the
    /// two. Only plans of version 2 have it.
    pub fn ahead(&mut self, first: NodeId, second: NodeId) -> Built
        ensures { Adds self.old self.new (Node.Ahead first second) result }
    {
        self.add(Node::Ahead { first, second })
    }
}
