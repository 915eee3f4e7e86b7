//! How nodes begin and end while a text is read.
ghost use Rattle.std.specs.Prelude.{◌≡◌, ◌<◌, IfOk, OnOk};
ghost use Rattle.plan_shape.specs.declared.limits.TheConstants.{MOST_DEPTH};
ghost use Rattle.plan_notation.specs.Machine.{Steps, after_sender, begin, begin_adaptor, begin_sender, node_begun, finish, put};

use crate::arguments::{is_kind, token_name};
use crate::assembled::node_json;
use crate::frame::{Done, Frame, Spot};
use crate::grammar::{begins_sender, has_brackets};
use crate::machine::{Expect, Machine};
use crate::wanted::{Fault, Wanted, refused};
use plan_reader::{NodeWord, node_named};
use plan_shape::MOST_DEPTH;
use plan_words::{Token, TokenKind};
use std::alloc::AllocError;

impl Machine {
    /// A node that begins a sender.
    pub(crate) fn begin_sender(&mut self, token: &Token) -> Result<(), Fault>
        ensures { Steps (begin_sender token.now self.old) self.new result }
    {
        match node_named(false, token_name(token)) {
            Some(word) if begins_sender(word) => self.begin(word, token.at(), None),
            _ => Err(refused(token.at(), Wanted::Sender)),
        }
    }

    /// A node that takes the sender before the bar.
    pub(crate) fn begin_adaptor(&mut self, token: &Token) -> Result<(), Fault>
        ensures { Steps (begin_adaptor token.now self.old) self.new result }
    {
        match node_named(false, token_name(token)) {
            Some(word) if !begins_sender(word) => {
                let sender = self.take_sender();
                self.begin(word, token.at(), Some(sender))
            }
            _ => Err(refused(token.at(), Wanted::Adaptor)),
        }
    }

    /// Begins a node at this offset, over this sender if it takes one.
    pub(crate) fn begin(
        &mut self,
        word: NodeWord,
        at: usize,
        child: Option<Done>,
    ) -> Result<(), Fault>
        ensures { Steps (begin word at child self.old) self.new result }
    {
        let frame = self.frame_of(word, at, child)?;
        if has_brackets(word) {
            self.push(frame)?;
            self.expect = Expect::Bracket;
            return Ok(());
        }
        self.finish(frame)
    }

    /// A node without arguments so far.
    fn frame_of(&self, word: NodeWord, at: usize, child: Option<Done>) -> Result<Frame, AllocError>
        ensures { IfOk result (λ frame. frame ≡ node_begun word at child) }
    {
        let frame = Frame {
            word,
            at,
            child: Vec::new(self.alloc),
            arguments: Vec::new(self.alloc),
            height: 0,
            below: Vec::new(self.alloc),
        };
        match child {
            None => Ok(frame),
            Some(child) => frame.over(child),
        }
    }

    /// A node has all its arguments.
    pub(crate) fn finish(&mut self, frame: Frame) -> Result<(), Fault>
        ensures { Steps (finish frame self.old) self.new result }
    {
        if frame.height >= MOST_DEPTH as usize {
            return Err(refused(frame.at, Wanted::Depth));
        }
        self.put(frame)?;
        Ok(())
    }

    /// The node is the sender that is done.
    fn put(&mut self, frame: Frame) -> Result<(), AllocError>
        requires { frame.height < MOST_DEPTH }
        ensures { OnOk result (self.new ≡ put frame self.old) }
    {
        let text = node_json(self.alloc, frame.word, &frame.child, &frame.arguments)?;
        self.sender = Done {
            text,
            height: frame.height + 1,
            number: self.spots.len(),
        };
        self.spots.push(Spot {
            at: frame.at,
            below: frame.below,
        })?;
        self.expect = Expect::Behind;
        Ok(())
    }

    /// Behind a sender: a bar, or the sender is an argument.
    pub(crate) fn after_sender(&mut self, token: &Token) -> Result<(), Fault>
        ensures { Steps (after_sender token.now self.old) self.new result }
    {
        if is_kind(token, TokenKind::Bar) {
            self.expect = Expect::Adaptor;
            return Ok(());
        }
        match self.pop() {
            None => Err(refused(token.at(), Wanted::End)),
            Some(frame) => {
                let sender = self.take_sender();
                self.push(frame.with_sender(sender)?)?;
                self.separator(token)
            }
        }
    }
}
