//! Why the kinds of a node don't match, by the signatures of a plan's nodes.
ghost use Rattle.std.specs.Prelude.{◌≡◌, IfOk, string_bytes};
ghost use Rattle.plan_reasons.specs.Kinds.{HasAll, bodies_mismatch, body_mismatch, joint, let_mismatch, mismatch, mismatch_at, value_at};
ghost use Rattle.plan_reasons.specs.Sentences.{IsSaid};

use crate::given::{
    body_gives, giver_of, is_int, job_takes, pick_gives, takes_gives, text_alone, upon_mismatch,
};
use crate::texts::shown_kind;
use exec_job::Job;
use plan_kinds::KindList;
use plan_rules::{Node, NodeId};
use plan_shape::Plan;
use sig_check::{Sigs, agrees, gives_for, takes_value};
use std::alloc::{AllocError, Global};

/// The signatures of a plan's nodes.
#[derive(Clone, Copy)]
pub struct Signed<'a> {
    pub plan: &'a Plan,
    pub sigs: &'a Sigs,
}

impl<'a> Signed<'a> {
    /// The shape of a node's value.
    #[tactic(auto, using(std::proofs::lemmas::Option::slice_get_past))]
    fn value_at(self, node: NodeId) -> Result<Option<KindList>, AllocError>
        requires { HasAll self }
        ensures { IfOk result (λ shape. shape ≡ value_at self.entry.sigs.now node) }
    {
        if node >= self.plan.size() {
            return Ok(None);
        }
        match &self.sigs.of(node).value {
            Some(kinds) => Ok(Some(kinds.clone()?)),
            None => Ok(None),
        }
    }

    /// The kinds that the bodies of a let are to give beside this shape.
    fn joint(
        self,
        front: &Option<KindList>,
        bodies: &[NodeId],
    ) -> Result<Option<KindList>, AllocError>
        requires { HasAll self }
        ensures { IfOk result (λ shape. shape ≡ joint self.entry.sigs.now front.now bodies.now) }
    {
        if let Some(kinds) = front {
            return Ok(Some(kinds.clone()?));
        }
        for index in 0..bodies.len() {
            if let Some(kinds) = self.value_at(bodies[index])? {
                return Ok(Some(kinds));
            }
        }
        Ok(None)
    }

    /// The first of these bodies that gives other kinds than these.
    fn body_mismatch(
        self,
        alloc: Global,
        other: &str,
        wanted: &Option<KindList>,
        bodies: &[NodeId],
    ) -> Result<Option<String>, AllocError>
        requires { HasAll self }
        ensures { IfOk result
            (IsSaid (body_mismatch self.entry.sigs.now other.now wanted.now 0 bodies.now)) }
    {
        for index in 0..bodies.len() {
            let value = self.value_at(bodies[index])?;
            if !agrees(wanted, &value) {
                return Ok(Some(body_gives(alloc, index as u64, &value, other, wanted)?));
            }
        }
        Ok(None)
    }

    /// The bodies of a let don't give the same kinds, nor those of this shape.
    fn bodies_mismatch(
        self,
        alloc: Global,
        front: &Option<KindList>,
        bodies: &[NodeId],
    ) -> Result<String, AllocError>
        requires { HasAll self }
        ensures { IfOk result (λ text. string_bytes text
            ≡ bodies_mismatch self.entry.sigs.now front.now bodies.now) }
    {
        let wanted = self.joint(front, bodies)?;
        match self.body_mismatch(alloc, giver_of(front), &wanted, bodies)? {
            Some(text) => Ok(text),
            None => Ok(String::new(alloc)),
        }
    }

    /// The pick of a let on a value, or what its bodies give.
    fn let_mismatch(
        self,
        alloc: Global,
        pick: &Job,
        giver: &str,
        shape: &Option<KindList>,
        front: &Option<KindList>,
        bodies: &[NodeId],
    ) -> Result<String, AllocError>
        requires { HasAll self }
        ensures { IfOk result (λ text. string_bytes text
            ≡ let_mismatch self.entry.sigs.now pick.now giver.now shape.now front.now
            bodies.now) }
    {
        if !takes_value(pick, shape) {
            return job_takes(alloc, pick, giver, shape);
        }
        let given = gives_for(pick, shape);
        if is_int(&given) {
            self.bodies_mismatch(alloc, front, bodies)
        } else {
            pick_gives(alloc, pick, &given)
        }
    }

    /// Why the kinds of a node with a job don't match.
    fn job_mismatch(self, alloc: Global, node: &Node) -> Result<String, AllocError>
        requires { HasAll self }
        ensures { IfOk result
            (λ text. string_bytes text ≡ mismatch self.entry.sigs.now node.now) }
    {
        match node {
            Node::Then { child, job } => {
                job_takes(alloc, job, "its child", &self.value_at(*child)?)
            }
            Node::UponError { child, job } => {
                let value = self.value_at(*child)?;
                upon_mismatch(alloc, job, "an error", &text_alone(), &value)
            }
            Node::UponStopped { child, job } => {
                let value = self.value_at(*child)?;
                upon_mismatch(alloc, job, "a stop", &Some(KindList::empty()), &value)
            }
            Node::StoppedAsOptional { child, of } => {
                let value = self.value_at(*child)?;
                takes_gives(
                    alloc,
                    "stopped_as_optional",
                    shown_kind(*of),
                    "its child",
                    &value,
                )
            }
            Node::Bulk { child, .. } => {
                takes_gives(alloc, "bulk", "row", "its child", &self.value_at(*child)?)
            }
            Node::LetValue {
                child,
                pick,
                bodies,
            } => {
                let value = self.value_at(*child)?;
                self.let_mismatch(alloc, pick, "its child", &value, &None, bodies.as_slice())
            }
            Node::LetError {
                child,
                pick,
                bodies,
            } => {
                let value = self.value_at(*child)?;
                self.let_mismatch(
                    alloc,
                    pick,
                    "an error",
                    &text_alone(),
                    &value,
                    bodies.as_slice(),
                )
            }
            Node::LetStopped {
                child,
                pick,
                bodies,
            } => {
                let value = self.value_at(*child)?;
                let none = Some(KindList::empty());
                self.let_mismatch(alloc, pick, "a stop", &none, &value, bodies.as_slice())
            }
            _ => String::from_str(
                alloc,
                "its children give more than the 64 data that a value may have",
            ),
        }
    }

    /// Why the kinds of this node of a plan don't match: what it takes, and what it is given. Of a
    /// number that is no node nothing is said.
    #[tactic(auto, using(std::proofs::lemmas::Option::slice_get_past))]
    pub fn mismatch(self, alloc: Global, node: NodeId) -> Result<String, AllocError>
        requires { HasAll self }
        ensures { IfOk result (λ text. string_bytes text
            ≡ mismatch_at self.entry.plan.now.nodes self.entry.sigs.now node) }
    {
        if node >= self.plan.size() {
            return Ok(String::new(alloc));
        }
        self.job_mismatch(alloc, self.plan.node(node))
    }
}
