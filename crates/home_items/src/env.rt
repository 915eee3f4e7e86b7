//! The environment of a receiver ([exec.get.env]), which shows a start.
ghost use Rattle.std.specs.Prelude.{◌≡◌};
ghost use Rattle.home_items.specs.Entries.{plan_of, carried_of, record_number, asked_of, child_of, record_start, start_naming, start_with};
ghost use Rattle.plan_kinds.specs.TreeLaws.{IsSpawned};
ghost use Rattle.home_items.specs.Starts.{IsReceiverStart, IsStart};

use crate::shown::{Shown, Shows};
use exec_value::Data;
use plan_rules::NodeId;
use plan_shape::Plan;
use std::marker::Model;

/// What a receiver's environment answers: the arguments, the record's number, and whether the
/// scope's request was made before the operation was started. It is seen as the start that it
/// shows.
#[derive(Drop)]
pub struct Env {
    pub(crate) args: Data,
    pub(crate) number: u32,
    pub(crate) asked: bool,
    pub(crate) child: Option<NodeId>,
    pub(crate) shown: Shown,
}

impl Model for Env {
    ghost use Rattle.std.specs.Prelude.{List};
    ghost use Rattle.home_items.specs.declared.entry.Entry.{Entry};
    ghost use Rattle.home_items.specs.Environments.{IsEnvironment};

    ghost Value = { List Entry };

    ghost view = { λ env. env.shown.start };

    ghost invariant = { λ env.
        IsEnvironment env.args env.number env.asked env.child env.shown.start };
}

impl Shows for Env {
    ghost start = { λ start. start };
}

/// A start of the receiver node for a record.
#[derive(Drop)]
struct OfRecord<'a> {
    plan: &'a Plan,
    args: &'a Data,
    number: u32,
    asked: bool,
}

impl<'a> Shows for OfRecord<'a> {
    ghost use Rattle.home_items.specs.Entries.{record_start};

    ghost start = { λ r. record_start r.plan.now r.args.now r.number r.asked };
}

/// A start of a child.
#[derive(Drop)]
struct Below<'a, X> {
    above: &'a X,
    node: NodeId,
    args: &'a Data,
    asked: bool,
}

impl<'a, X: Shows> Shows for Below<'a, X> {
    ghost use Rattle.home_items.specs.Entries.{start_with};

    ghost start = { λ b. start_with b.node b.args.now b.asked (X.start b.above.now) };
}

/// The same start, naming another child.
#[derive(Drop)]
struct Naming<'a> {
    env: &'a Env,
    child: NodeId,
}

impl<'a> Shows for Naming<'a> {
    ghost use Rattle.home_items.specs.Entries.{start_naming};

    ghost start = { λ n. start_naming n.child n.env.now };
}

impl Env {
    /// A start of the receiver node, which names the plan's root. It takes no memory.
    pub fn of_record(plan: &Plan, args: Data, number: u32, asked: bool) -> Env
        ensures { result ≡ record_start plan.now args number asked }
    {
        let shown = Shown::of(&OfRecord {
            plan,
            args: &args,
            number,
            asked,
        });
        Env {
            args,
            number,
            asked,
            child: Some(plan.size() - 1),
            shown,
        }
    }

    /// The start of a child of the node that has the start above, with the same plan and record
    /// number. A part of a bulk has the whole row as its arguments, and shows its share of it. It
    /// takes no memory.
    #[inline(always)]
    pub fn below<X: Shows>(above: &X, node: NodeId, args: Data, number: u32, asked: bool) -> Env
        requires number { number ≡ record_number (X.start above.now) }
        requires goes_on { IsStart (start_with node args asked (X.start above.now)) }
        requires carries { carried_of (start_with node args asked (X.start above.now)) ≡ args }
        ensures { result ≡ start_with node args asked (X.start above.now) }
    {
        let shown = Shown::of(&Below {
            above,
            node,
            args: &args,
            asked,
        });
        Env {
            args,
            number,
            asked,
            child: None,
            shown,
        }
    }

    /// The same start of the receiver node, but that it names the first child of an `ahead`. It
    /// takes no memory.
    pub fn naming_first(self, first: NodeId) -> Env
        requires receiver { IsReceiverStart self }
        requires first { IsSpawned (plan_of self).nodes first }
        ensures { result ≡ start_naming first self }
    {
        let shown = Shown::of(&Naming {
            env: &self,
            child: first,
        });
        Env {
            args: self.args,
            number: self.number,
            asked: self.asked,
            child: Some(first),
            shown,
        }
    }

    /// The data with which the node runs.
    pub fn args(&self) -> &Data
        ensures { result.now ≡ carried_of self.now }
    {
        &self.args
    }

    /// The same, taken out.
    #[inline(always)]
    pub fn into_args(self) -> Data
        ensures { result ≡ carried_of self }
    {
        self.args
    }

    /// The record's number.
    pub fn number(&self) -> u32
        ensures { result ≡ record_number self.now }
    {
        self.number
    }

    /// Whether the scope's request was made before the operation was started.
    pub fn asked(&self) -> bool
        ensures { result ≡ asked_of self.now }
    {
        self.asked
    }

    /// The child that the operation runs, in a start of the receiver node; else none.
    pub fn child(&self) -> Option<NodeId>
        ensures { result ≡ child_of self.now }
    {
        self.child
    }
}
