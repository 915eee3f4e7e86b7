//! Nodes behind the senders that they take, as tokens.
ghost use Rattle.std.specs.Prelude.{◌≡◌, ◌++◌, ◌∷◌, [], IsTrue, OnOk, codes};
ghost use Rattle.plan_writer.specs.Held.{IsHeldJob, IsHeldNode};
ghost use Rattle.plan_notation.specs.Tokens.{job_words, text_word};
ghost use Rattle.plan_notation.specs.NodeTokens.{in_brackets, is_adaptor, later_nodes, let_words, node_words, behind_child};

use crate::nodes::{context_name, kind_name, put_closed_text, put_later, put_node};
use crate::words::Words;
use crate::written::put_job;
use exec_job::Job;
use exec_value::Txt;
use plan_rules::{Node, NodeId};
use std::alloc::{AllocError, Global};

/// Adds a node behind the sender that it takes.
pub(crate) fn put_adaptor(
    alloc: Global,
    node: &Node,
    done: &[Words],
    words: &mut Words,
) -> Result<(), AllocError>
    requires { IsTrue (is_adaptor node.now) }
    ensures words { OnOk result (words.new ≡ words.old ++ node_words done.now node.now) }
    ensures held { OnOk result (IsHeldNode node.now) }
{
    match node {
        Node::Then { child, job } => put_job_over(alloc, *child, "then", job, done, words),
        Node::UponError { child, job } => {
            put_job_over(alloc, *child, "upon_error", job, done, words)
        }
        Node::UponStopped { child, job } => {
            put_job_over(alloc, *child, "upon_stopped", job, done, words)
        }
        Node::Bulk { child, job } => put_job_over(alloc, *child, "bulk", job, done, words),
        Node::LetValue {
            child,
            pick,
            bodies,
        } => put_let(
            alloc,
            *child,
            "let_value",
            pick,
            bodies.as_slice(),
            done,
            words,
        ),
        Node::LetError {
            child,
            pick,
            bodies,
        } => put_let(
            alloc,
            *child,
            "let_error",
            pick,
            bodies.as_slice(),
            done,
            words,
        ),
        Node::LetStopped {
            child,
            pick,
            bodies,
        } => put_let(
            alloc,
            *child,
            "let_stopped",
            pick,
            bodies.as_slice(),
            done,
            words,
        ),
        Node::ContinuesOn { child, on } => {
            put_word_over(*child, "continues_on", context_name(*on), done, words)
        }
        Node::StoppedAsOptional { child, of } => {
            put_word_over(*child, "stopped_as_optional", kind_name(*of), done, words)
        }
        Node::StoppedAsError { child, error } => {
            put_text_over(alloc, *child, "stopped_as_error", error, done, words)
        }
        Node::Unstoppable { child } => put_over(*child, "unstoppable", done, words),
        _ => unreachable!(),
    }
}

/// Adds a sender, a bar and the name of the node that takes it.
fn put_over(child: NodeId, name: &str, done: &[Words], words: &mut Words) -> Result<(), AllocError>
    ensures { OnOk result
        (words.new ≡ words.old ++ behind_child done.now child (name.now ∷ [])) }
{
    put_node(child, done, words)?;
    words.put_all(&["|", name])
}

/// Adds a node with a job over this sender.
#[tactic(auto, using(crate::proofs::Joins::over_more))]
fn put_job_over(
    alloc: Global,
    child: NodeId,
    name: &str,
    job: &Job,
    done: &[Words],
    words: &mut Words,
) -> Result<(), AllocError>
    ensures words { OnOk result (words.new
        ≡ words.old ++ behind_child done.now child (in_brackets name.now (job_words job.now))) }
    ensures held { OnOk result (IsHeldJob job.now) }
{
    put_over(child, name, done, words)?;
    put_closed_job(alloc, job, words)
}

/// Adds a job in brackets.
fn put_closed_job(alloc: Global, job: &Job, words: &mut Words) -> Result<(), AllocError>
    ensures words { OnOk result (words.new
        ≡ words.old ++ codes "(" ∷ (job_words job.now ++ codes ")" ∷ [])) }
    ensures held { OnOk result (IsHeldJob job.now) }
{
    words.put("(")?;
    put_job(alloc, job, words)?;
    words.put(")")
}

/// Adds a node with a pick and bodies over this sender.
#[tactic(auto, using(crate::proofs::Joins::over_more))]
fn put_let(
    alloc: Global,
    child: NodeId,
    name: &str,
    pick: &Job,
    bodies: &[NodeId],
    done: &[Words],
    words: &mut Words,
) -> Result<(), AllocError>
    ensures words { OnOk result (words.new
        ≡ words.old ++ let_words done.now child name.now (job_words pick.now) bodies.now) }
    ensures held { OnOk result (IsHeldJob pick.now) }
{
    put_over(child, name, done, words)?;
    put_bodies(alloc, pick, bodies, done, words)
}

/// Adds a pick and bodies in brackets.
fn put_bodies(
    alloc: Global,
    pick: &Job,
    bodies: &[NodeId],
    done: &[Words],
    words: &mut Words,
) -> Result<(), AllocError>
    ensures words { OnOk result (words.new ≡ words.old ++ codes "("
        ∷ ((job_words pick.now ++ later_nodes done.now bodies.now) ++ codes ")" ∷ [])) }
    ensures held { OnOk result (IsHeldJob pick.now) }
{
    words.put("(")?;
    put_job(alloc, pick, words)?;
    put_later(bodies, done, words)?;
    words.put(")")
}

/// Adds a node with one word as its argument over this sender.
#[tactic(auto, using(crate::proofs::Joins::over_more))]
fn put_word_over(
    child: NodeId,
    name: &str,
    word: &str,
    done: &[Words],
    words: &mut Words,
) -> Result<(), AllocError>
    ensures { OnOk result (words.new
        ≡ words.old ++ behind_child done.now child (in_brackets name.now (word.now ∷ []))) }
{
    put_over(child, name, done, words)?;
    words.put_all(&["(", word, ")"])
}

/// Adds a node with one text as its argument over this sender.
#[tactic(auto, using(crate::proofs::Joins::over_more))]
fn put_text_over(
    alloc: Global,
    child: NodeId,
    name: &str,
    text: &Txt,
    done: &[Words],
    words: &mut Words,
) -> Result<(), AllocError>
    ensures { OnOk result (words.new
        ≡ words.old
        ++ behind_child done.now child (in_brackets name.now (text_word text.now ∷ []))) }
{
    put_over(child, name, done, words)?;
    put_closed_text(alloc, text, words)
}
