//! How a node is evaluated, by its kind: each call puts the node's completion in the place that it
//! is given, where no completion is moved on the way up.
ghost use Rattle.std.specs.Prelude.{◌≡◌, IfSome, false};
ghost use Rattle.plan_rules.specs.Settle.{let_of, unless_asked};
ghost use Rattle.plan_rules.specs.declared.node.Node.{Node};
ghost use Rattle.plan_kinds.specs.Runnable.{IsRunnable, RunsWith};
ghost use Rattle.plan_settle.specs.Runs.{MayPick, NodeIs};

use exec_job::Job;
use exec_value::{Completion, Data};
use node_images::{
    NoRoom, apply_to_row, join_child, no_children, pick_body, put_behind, put_error, put_scheduled,
    put_shown, put_stopped, put_together, put_value, stopped_as_error, stopped_as_optional,
    take_error, take_stopped, take_value, then, upon_error, upon_stopped,
};
use node_tree::NodeList;
use plan_rules::{Node, NodeId};
use plan_shape::Plan;
use std::alloc::{AllocError, Global};

/// What all nodes of an evaluation share.
#[derive(Clone, Copy)]
pub(crate) struct Evaluation<'a> {
    pub alloc: Global,
    pub plan: &'a Plan,
    /// The record's number.
    pub number: u32,
    /// Whether a stop was asked before the start.
    pub asked: bool,
}

impl Evaluation<'_> {
    ghost use Rattle.plan_settle.specs.Settles.{Settles, settled_by, settled_case};
    ghost use Rattle.plan_settle.specs.Lets.{IsLet, settled_let};

    /// The completion of a node that runs with these arguments.
    #[cycle(settle)]
    pub(crate) fn settle(
        &self,
        at: NodeId,
        args: &Data,
        done: &mut Completion,
    ) -> Result<(), AllocError>
        requires runnable { IsRunnable self.now.plan.now }
        requires runs { RunsWith self.now.plan.now at args.now }
        ensures { Settles self.now (settled_by self.now at args.now) done.new result }
    {
        self.settle_one(at, self.plan.node(at), args, done)
    }

    /// The same of this node. Each arm is a call or two, so that nothing large stands in its frame.
    #[cycle(settle)]
    fn settle_one(
        &self,
        at: NodeId,
        node: &Node,
        args: &Data,
        done: &mut Completion,
    ) -> Result<(), AllocError>
        requires runnable { IsRunnable self.now.plan.now }
        requires runs { RunsWith self.now.plan.now at args.now }
        requires node_is { NodeIs self.now at node.now }
        ensures { Settles self.now (settled_case self.now node.now args.now) done.new result }
    {
        let alloc = self.alloc;
        match node {
            Node::Input => put_value(alloc, args, done),
            Node::Just(values) => put_value(alloc, values, done),
            Node::JustError(name) => put_error(name, done),
            Node::JustStopped => {
                put_stopped(done);
                Ok(())
            }
            Node::Schedule(_) | Node::Delay(_) => {
                put_scheduled(alloc, self.asked, done);
                Ok(())
            }
            Node::ReadEnv(query) => {
                put_shown(alloc, *query, self.number, self.asked, done);
                Ok(())
            }
            Node::Then { child, job } => {
                self.settle(*child, args, done)?;
                then(alloc, job, done)
            }
            Node::UponError { child, job } => {
                self.settle(*child, args, done)?;
                upon_error(alloc, job, done)
            }
            Node::UponStopped { child, job } => {
                self.settle(*child, args, done)?;
                upon_stopped(alloc, job, done)
            }
            Node::LetValue { .. } | Node::LetError { .. } | Node::LetStopped { .. } => {
                self.settle_let(at, node, args, done)
            }
            Node::StartsOn { child, .. } => self.settle_hop(*child, args, done),
            Node::ContinuesOn { child, .. } => self.settle_hop(*child, args, done),
            Node::StoppedAsOptional { child, .. } => {
                self.settle(*child, args, done)?;
                stopped_as_optional(alloc, done)
            }
            Node::StoppedAsError { child, error } => {
                self.settle(*child, args, done)?;
                stopped_as_error(error, done)
            }
            Node::Bulk { child, job } => {
                self.settle(*child, args, done)?;
                apply_to_row(alloc, job, done)
            }
            Node::WhenAll { children } => self.settle_all(at, children, args, done),
            Node::Part { .. } => unreachable!(),
            Node::Unstoppable { child } => self.unasked().settle(*child, args, done),
            Node::Ahead { first, second } => self.settle_ahead(at, *first, *second, args, done),
        }
    }

    /// The same evaluation where no stop is ever asked.
    fn unasked(&self) -> Evaluation<'_>
        ensures plan { result.plan.now ≡ self.now.plan.now }
        ensures number { result.number ≡ self.now.number }
        ensures asked { result.asked ≡ false }
    {
        Evaluation {
            asked: false,
            ..*self
        }
    }

    /// What a hop completes with: as its child, unless a stop was asked.
    #[cycle(settle)]
    fn settle_hop(
        &self,
        child: NodeId,
        args: &Data,
        done: &mut Completion,
    ) -> Result<(), AllocError>
        requires runnable { IsRunnable self.now.plan.now }
        requires runs { RunsWith self.now.plan.now child args.now }
        ensures { Settles self.now
            (unless_asked self.now.asked (settled_by self.now child args.now)) done.new result }
    {
        if self.asked {
            put_stopped(done);
            Ok(())
        } else {
            self.settle(child, args, done)
        }
    }

    /// What this let completes with.
    #[cycle(settle)]
    fn settle_let(
        &self,
        at: NodeId,
        node: &Node,
        args: &Data,
        done: &mut Completion,
    ) -> Result<(), AllocError>
        requires runnable { IsRunnable self.now.plan.now }
        requires runs { RunsWith self.now.plan.now at args.now }
        requires node_is { NodeIs self.now at node.now }
        requires is_let { IsLet node.now }
        ensures { Settles self.now (settled_case self.now node.now args.now) done.new result }
    {
        match node {
            Node::LetValue {
                child,
                pick,
                bodies,
            } => {
                self.settle(*child, args, done)?;
                let values = take_value(self.alloc, done);
                self.settle_body(at, pick, bodies, values, done)
            }
            Node::LetError {
                child,
                pick,
                bodies,
            } => {
                self.settle(*child, args, done)?;
                let name = take_error(self.alloc, done);
                self.settle_body(at, pick, bodies, name, done)
            }
            Node::LetStopped {
                child,
                pick,
                bodies,
            } => {
                self.settle(*child, args, done)?;
                let none = take_stopped(self.alloc, done);
                self.settle_body(at, pick, bodies, none, done)
            }
            _ => unreachable!(),
        }
    }

    /// What the let of this number completes with, where these data were taken from its channel.
    /// Where there were none, its child's completion passes.
    #[cycle(settle)]
    fn settle_body(
        &self,
        at: NodeId,
        pick: &Job,
        bodies: &NodeList,
        taken: Option<Data>,
        done: &mut Completion,
    ) -> Result<(), AllocError>
        requires runnable { IsRunnable self.now.plan.now }
        requires picks { IfSome taken (MayPick self.now at pick.now bodies.now) }
        ensures { Settles self.now
            (settled_let self.now pick.now bodies.now taken done.old) done.new result }
    {
        let Some(values) = taken else {
            return Ok(());
        };
        match pick_body(self.alloc, pick, &values, bodies.as_slice(), done)? {
            Some(body) => self.settle(body, &values, done),
            None => Ok(()),
        }
    }

    /// What the `when_all` of this number, which has these children, completes with.
    #[cycle(settle)]
    fn settle_all(
        &self,
        at: NodeId,
        children: &NodeList,
        args: &Data,
        done: &mut Completion,
    ) -> Result<(), AllocError>
        requires runnable { IsRunnable self.now.plan.now }
        requires runs { RunsWith self.now.plan.now at args.now }
        requires node_is { NodeIs self.now at (Node.WhenAll children.now) }
        ensures { Settles self.now
            (settled_case self.now (Node.WhenAll children.now) args.now) done.new result }
    {
        if self.asked {
            put_stopped(done);
            return Ok(());
        }
        let mut together = no_children(self.alloc);
        for child in children.as_slice() {
            self.settle(*child, args, done)?;
            join_child(&mut together, done);
        }
        match put_together(together, done) {
            Ok(()) => Ok(()),
            Err(NoRoom::Memory) => Err(AllocError),
            Err(NoRoom::Limit) => unreachable!(),
        }
    }

    /// What the `ahead` of this number, which has these children, completes with.
    #[cycle(settle)]
    fn settle_ahead(
        &self,
        at: NodeId,
        first: NodeId,
        second: NodeId,
        args: &Data,
        done: &mut Completion,
    ) -> Result<(), AllocError>
        requires runnable { IsRunnable self.now.plan.now }
        requires runs { RunsWith self.now.plan.now at args.now }
        requires node_is { NodeIs self.now at (Node.Ahead first second) }
        ensures { Settles self.now
            (settled_case self.now (Node.Ahead first second) args.now) done.new result }
    {
        self.settle(second, args, done)?;
        match take_value(self.alloc, done) {
            None => Ok(()),
            Some(values) => {
                self.settle(first, args, done)?;
                put_behind(values, done)
            }
        }
    }
}
