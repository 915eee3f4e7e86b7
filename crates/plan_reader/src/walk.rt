//! Where a walk over the nodes of a plan file stands, and how it makes a node.
//!
//! It goes on behind a fault, so that each kind of fault is found wherever it stands, and makes no
//! node from the first fault on.
ghost use Rattle.std.specs.Prelude.{◌≡◌, ◌≢◌, ◌↔◌, [], ◌∷◌, Ok, Err, IsTrue, IfOk, IfErr, OnOk, map};
ghost use Rattle.serde_json.specs.View.{view};
ghost use Rattle.plan_shape.specs.Blueprint.{AreSettings};
ghost use Rattle.plan_shape.specs.Conditions.{MeetsConditions};
ghost use Rattle.plan_rules.specs.Children.{named_by};
ghost use Rattle.plan_rules.specs.declared.node.Node.{Node};
ghost use Rattle.plan_parts.specs.Reading.{IfGood};
ghost use Rattle.plan_reader.specs.Plans.{joined};
ghost use Rattle.plan_reader.specs.Roots.{AreRoots, HasOneRoot};
ghost use Rattle.plan_reader.specs.Walked.{at_start, blame, check_keys, last, make, take, take_bulk};

use crate::fault::PlanFault;
use crate::found::Found;
use crate::plan::first_fault;
use exec_job::Job;
use plan_builder::{BuildFault, PlanBuilder};
use plan_parts::{Faults, LIMIT_FAULT, NAME_FAULT, NO_FAULT, Reading, has_unknown_key};
use plan_rules::{Node, NodeId, Settings};
use serde_json::Value;
use std::alloc::{AllocError, Global};
use std::marker::Model;

/// Where a walk stands, seen as the nodes that it made and what it found wrong.
#[derive(Drop)]
pub(crate) struct Walk {
    builder: PlanBuilder,
    last: NodeId,
    elements: bool,
    faults: Faults,
    is_first: bool,
}

impl Model for Walk {
    ghost use Rattle.std.specs.Prelude.{◌≡◌, ◌-◌, length};
    ghost use Rattle.plan_reader.specs.Walked.{Walked};

    ghost Value = { Walked };

    ghost view = { λ w. record {
      nodes = w.builder;
      elements = w.elements;
      faults = w.faults;
      is_first = w.is_first;
    } };

    ghost invariant = { λ w. w.last ≡ length w.builder - 1 };
}

impl Walk {
    /// A walk that hasn't begun, over a plan of version 1 or of a later one.
    pub(crate) fn new(alloc: Global, is_first: bool) -> Walk
        ensures { result ≡ at_start is_first }
    {
        Walk {
            builder: PlanBuilder::new(alloc),
            last: 0,
            elements: true,
            faults: NO_FAULT,
            is_first,
        }
    }

    /// What was found wrong.
    pub(crate) fn faults(&self) -> Faults
        ensures { result ≡ self.now.faults }
    {
        self.faults
    }

    /// The plan of the nodes that were made, under the last of them.
    pub(crate) fn finish(self, settings: Settings) -> Result<Found, PlanFault>
        requires settings { AreSettings settings }
        requires roots { HasOneRoot self settings }
        ensures ok { IfOk result (λ found. joined (Reading.Good settings) self ≡ Ok found) }
        ensures err { IfErr result (λ fault. fault ≢ PlanFault.NoMemory
            → joined (Reading.Good settings) self ≡ Err fault) }
    {
        if self.faults.any() {
            return Err(first_fault(self.faults));
        }
        let elements = self.elements;
        match self.builder.finish(self.last, settings) {
            Ok(plan) => Ok(Found { plan, elements }),
            Err(fault) => Err(finish_fault(fault)),
        }
    }

    /// Notes these faults.
    pub(crate) fn blame(&mut self, faults: Faults)
        ensures { self.new ≡ blame faults self.old }
    {
        self.faults = self.faults.both(faults);
    }

    /// The number of the node that was made last.
    pub(crate) fn last(&self) -> NodeId
        ensures { result ≡ last self.now }
    {
        self.last
    }

    /// Whether the plan is of version 1.
    pub(crate) fn is_first(&self) -> bool
        ensures { result ≡ self.now.is_first }
    {
        self.is_first
    }

    /// Makes a node, where nothing is wrong.
    pub(crate) fn make(&mut self, node: Node) -> Result<(), AllocError>
        requires conditions { MeetsConditions node }
        requires roots { AreRoots self.old (named_by node) }
        ensures { OnOk result (self.new ≡ make node self.old) }
    {
        if self.faults.any() {
            drop(node);
            return Ok(());
        }
        match self.builder.add(node) {
            Ok(number) => {
                self.last = number;
                Ok(())
            }
            Err(fault) => {
                if is_memory(fault) {
                    return Err(AllocError);
                }
                self.faults = self.faults.both(LIMIT_FAULT);
                Ok(())
            }
        }
    }

    /// Makes the node that was read.
    pub(crate) fn take(&mut self, reading: Reading<Node>) -> Result<(), AllocError>
        requires conditions { IfGood reading MeetsConditions }
        requires roots { IfGood reading (λ node. AreRoots self.old (named_by node)) }
        ensures { OnOk result (self.new ≡ take reading self.old) }
    {
        match reading {
            Reading::Good(node) => self.make(node),
            Reading::Bad(faults) => {
                self.blame(faults);
                Ok(())
            }
        }
    }

    /// Makes a bulk over a child.
    pub(crate) fn take_bulk(
        &mut self,
        child: NodeId,
        reading: Reading<Job>,
    ) -> Result<(), AllocError>
        requires { AreRoots self.old (child ∷ []) }
        ensures { OnOk result (self.new ≡ take_bulk child reading self.old) }
    {
        match reading {
            Reading::Good(job) => self.make_bulk(child, job),
            Reading::Bad(faults) => {
                self.blame(faults);
                Ok(())
            }
        }
    }

    /// Makes a bulk with this job over a child.
    fn make_bulk(&mut self, child: NodeId, job: Job) -> Result<(), AllocError>
        requires { AreRoots self.old (child ∷ []) }
        ensures { OnOk result (self.new ≡ take_bulk child (Reading.Good job) self.old) }
    {
        if job.is_element() {
            self.make(Node::Bulk { child, job })
        } else {
            self.elements = false;
            let job = Job::Neg;
            self.make(Node::Bulk { child, job })
        }
    }

    /// Notes a key that isn't one of these.
    pub(crate) fn check_keys(&mut self, known: &[&str], value: &Value)
        ensures { self.new ≡
            check_keys (map (λ key. key.now) known.now) (view value.now) self.old }
    {
        if has_unknown_key(value, known) {
            self.blame(NAME_FAULT);
        }
    }
}

/// Whether there was no memory.
fn is_memory(fault: BuildFault) -> bool
    ensures { IsTrue result ↔ (fault ≡ BuildFault.NoMemory) }
{
    matches!(fault, BuildFault::NoMemory)
}

/// How a builder's refusal of a plan is answered.
fn finish_fault(fault: BuildFault) -> PlanFault
    ensures memory { (result ≡ PlanFault.NoMemory) ↔ (fault ≡ BuildFault.NoMemory) }
    ensures other { result ≢ PlanFault.NoMemory → result ≡ PlanFault.Limit }
{
    match fault {
        BuildFault::NoMemory => PlanFault::NoMemory,
        _ => PlanFault::Limit,
    }
}
