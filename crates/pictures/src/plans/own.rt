//! What a box says of a node's own data.
ghost use Rattle.std.specs.Prelude.{◌≡◌, ◌++◌, OnOk};
ghost use Rattle.pictures.specs.Adding.{Adds};
ghost use Rattle.pictures.specs.Plans.Words.{context_word, job_text, own_text, query_word};

use crate::plans::folds::put_bytes;
use crate::plans::job::{put_job, put_with_text, put_with_values};
use crate::plans::name::kind_word;
use crate::text::put_all;
use exec_job::Job;
use itoa::Buffer;
use node_tree::Context;
use plan_rules::{Node, Query};
use std::alloc::{AllocError, Global};

/// Adds what a box says of a node's own data.
pub(crate) fn put_own(alloc: Global, node: &Node, text: &mut Vec<u8>) -> Result<(), AllocError>
    ensures { OnOk result (Adds text.old.items text.new.items (own_text node.now)) }
{
    match node {
        Node::Just(values) => put_with_values(alloc, "\\nvalues", values.as_slice(), text),
        Node::JustError(error) => put_with_text("\\nerror ", error, text),
        Node::Delay(turns) => put_turns(*turns, text),
        Node::ReadEnv(asked) => put_all(&["\\nquery ", query_word(*asked)], text),
        Node::Then { job, .. } | Node::Bulk { job, .. } => put_with_job(
            alloc, "\\njob ", job, text,
        ),
        Node::UponError { job, .. } => put_with_job(alloc, "\\njob ", job, text),
        Node::UponStopped { job, .. } => put_with_job(alloc, "\\njob ", job, text),
        Node::LetValue { pick, .. } => put_with_job(alloc, "\\npick ", pick, text),
        Node::LetError { pick, .. } => put_with_job(alloc, "\\npick ", pick, text),
        Node::LetStopped { pick, .. } => put_with_job(alloc, "\\npick ", pick, text),
        Node::Schedule(on) => put_all(&["\\non ", context_word(*on)], text),
        Node::StartsOn { on, .. } => put_all(&["\\non ", context_word(*on)], text),
        Node::ContinuesOn { on, .. } => put_all(&["\\non ", context_word(*on)], text),
        Node::StoppedAsOptional { of, .. } => put_all(&["\\nof ", kind_word(*of)], text),
        Node::StoppedAsError { error, .. } => put_with_text("\\nerror ", error, text),
        _ => put_all(&[], text),
    }
}

/// Adds the turns of a delay.
fn put_turns(turns: u32, text: &mut Vec<u8>) -> Result<(), AllocError>
    ensures { OnOk result (Adds text.old.items text.new.items (own_text (Node.Delay turns))) }
{
    let mut buffer = Buffer::new();
    put_all(&["\\nturns ", buffer.format(turns)], text)
}

/// Adds a word, and a job behind it.
fn put_with_job(alloc: Global, word: &str, job: &Job, text: &mut Vec<u8>) -> Result<(), AllocError>
    ensures { OnOk result (Adds text.old.items text.new.items (word.now ++ job_text job.now)) }
{
    put_bytes(word.as_bytes(), text)?;
    put_job(alloc, job, text)
}

/// The name of a context.
fn context_word(on: Context) -> &'static str
    ensures { result.now ≡ context_word on }
{
    match on {
        Context::Loop => "loop",
        Context::Pool => "pool",
    }
}

/// The name of a query.
fn query_word(asked: Query) -> &'static str
    ensures { result.now ≡ query_word asked }
{
    match asked {
        Query::Stop => "stop",
        Query::Record => "record",
    }
}
