//! How the arguments of nodes and the constants of jobs are read.
ghost use Rattle.std.specs.Prelude.{◌≡◌, OnOk};
ghost use Rattle.plan_notation.specs.Machine.{Steps, after_job, allows, argument, begin_job, close, end_job, is_job, missing, missing_of_job, separator, constant_added};

use crate::arguments::{argument_text, is_kind, token_name};
use crate::assembled::job_json;
use crate::frame::Frame;
use crate::grammar::{fewest, fewest_of_job, is_element_word, wanted_by_job, wanted_by_node};
use crate::joined::Piece;
use crate::machine::{Expect, Machine};
use crate::wanted::{Fault, Wanted, refused};
use plan_parts::{JobWord, job_named};
use plan_words::{Token, TokenKind};
use std::alloc::AllocError;

impl Machine {
    /// The bracket behind the last argument.
    pub(crate) fn close(&mut self, token: &Token) -> Result<(), Fault>
        ensures { Steps (close token.now self.old) self.new result }
    {
        match self.pop() {
            None => Err(refused(token.at(), Wanted::End)),
            Some(frame) => {
                if frame.count() < fewest(frame.word()) {
                    return Err(refused(token.at(), missing(&frame)));
                }
                self.finish(frame)
            }
        }
    }

    /// The next argument of the node.
    pub(crate) fn argument(&mut self, token: &Token) -> Result<(), Fault>
        ensures { Steps (argument token.now self.old) self.new result }
    {
        let Some(frame) = self.pop() else {
            return Err(refused(token.at(), Wanted::End));
        };
        let wanted = wanted_by_node(frame.word(), frame.count());
        match wanted {
            None => Err(refused(token.at(), Wanted::Close)),
            Some(Wanted::Sender) => {
                self.push(frame)?;
                self.begin_sender(token)
            }
            Some(wanted) if is_job(wanted) => {
                self.push(frame)?;
                self.begin_job(wanted, token)
            }
            Some(wanted) => {
                let text = argument_text(self.alloc, wanted, token)?;
                self.push(frame.with_argument(text)?)?;
                self.expect = Expect::Separator;
                Ok(())
            }
        }
    }

    /// A job.
    fn begin_job(&mut self, wanted: Wanted, token: &Token) -> Result<(), Fault>
        ensures { Steps (begin_job wanted token.now self.old) self.new result }
    {
        match job_named(token_name(token)) {
            Some(job) if allows(wanted, job) => {
                self.constants = Vec::new(self.alloc);
                self.expect = Expect::Job(job);
                Ok(())
            }
            _ => Err(refused(token.at(), wanted)),
        }
    }

    /// Behind a job: a constant of it, or what follows it.
    pub(crate) fn after_job(&mut self, job: JobWord, token: &Token) -> Result<(), Fault>
        ensures { Steps (after_job job token.now self.old) self.new result }
    {
        if is_kind(token, TokenKind::Comma) || is_kind(token, TokenKind::Close) {
            return self.end_job(job, token);
        }
        match wanted_by_job(job, self.constants.len()) {
            None => Err(refused(token.at(), Wanted::Separator)),
            Some(wanted) => {
                let text = argument_text(self.alloc, wanted, token)?;
                self.add_constant(text)?;
                Ok(())
            }
        }
    }

    /// One constant more of the job.
    fn add_constant(&mut self, text: Piece) -> Result<(), AllocError>
        ensures { OnOk result (self.new ≡ constant_added text.items self.old) }
    {
        self.constants.push(text)?;
        Ok(())
    }

    /// The job has all its constants.
    fn end_job(&mut self, job: JobWord, token: &Token) -> Result<(), Fault>
        ensures { Steps (end_job job token.now self.old) self.new result }
    {
        if self.constants.len() < fewest_of_job(job) {
            return Err(refused(token.at(), missing_of_job(job, self.constants.len())));
        }
        let text = job_json(self.alloc, job, &self.constants)?;
        match self.pop() {
            None => Err(refused(token.at(), Wanted::End)),
            Some(frame) => {
                self.push(frame.with_argument(text)?)?;
                self.separator(token)
            }
        }
    }

    /// Behind an argument: a comma, or the last bracket.
    pub(crate) fn separator(&mut self, token: &Token) -> Result<(), Fault>
        ensures { Steps (separator token.now self.old) self.new result }
    {
        if is_kind(token, TokenKind::Comma) {
            self.expect = Expect::Argument;
            return Ok(());
        }
        if is_kind(token, TokenKind::Close) {
            return self.close(token);
        }
        Err(refused(token.at(), Wanted::Separator))
    }
}

/// What a node lacks.
fn missing(frame: &Frame) -> Wanted
    ensures { result ≡ missing frame.now }
{
    match wanted_by_node(frame.word(), frame.count()) {
        Some(wanted) => wanted,
        None => Wanted::Close,
    }
}

/// What a job lacks.
fn missing_of_job(job: JobWord, count: usize) -> Wanted
    ensures { result ≡ missing_of_job job count }
{
    match wanted_by_job(job, count) {
        Some(wanted) => wanted,
        None => Wanted::Separator,
    }
}

/// Whether a job is wanted.
fn is_job(wanted: Wanted) -> bool
    ensures { result ≡ is_job wanted }
{
    matches!(wanted, Wanted::Job | Wanted::ElementJob)
}

/// Whether this job may stand where one is wanted.
fn allows(wanted: Wanted, job: JobWord) -> bool
    ensures { result ≡ allows wanted job }
{
    match wanted {
        Wanted::ElementJob => is_element_word(job),
        _ => true,
    }
}
