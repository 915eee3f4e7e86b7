//! Nodes whose arguments are being read, and the places of those that are done.
ghost use Rattle.std.specs.Prelude.{◌≡◌, IfOk, length};
ghost use Rattle.plan_notation.specs.Frames.{frame_over, with_argument, with_sender};

use crate::joined::Piece;
use plan_reader::NodeWord;
use std::alloc::AllocError;
use std::marker::Model;

/// A sender that is done: its JSON, the number of nodes on its longest path, and its number among
/// the nodes that are done.
#[derive(Drop)]
pub(crate) struct Done {
    pub text: Piece,
    pub height: usize,
    pub number: usize,
}

impl Model for Done {
    ghost use Rattle.plan_notation.specs.Frames.{DoneSender};

    ghost Value = { DoneSender };

    ghost view = { λ d. record { text = d.text.items; height = d.height; number = d.number } };
}

impl Done {
    /// Its JSON.
    pub(crate) fn text(&self) -> &[u8]
        ensures { result.now ≡ self.now.text }
    {
        &self.text
    }
}

/// Where a node stands, and the numbers of its children.
#[derive(Drop)]
pub struct Spot {
    pub at: usize,
    pub below: Vec<usize>,
}

impl Model for Spot {
    ghost use Rattle.plan_notation.specs.Frames.{SpotSeen};

    ghost Value = { SpotSeen };

    ghost view = { λ s. record { at = s.at; below = s.below.items } };
}

/// A node whose arguments are being read: where its word stands, the sender before the bar, the
/// arguments so far, the longest path below it, and the numbers of its children.
#[derive(Drop)]
pub(crate) struct Frame {
    pub word: NodeWord,
    pub at: usize,
    pub child: Piece,
    pub arguments: Vec<Piece>,
    pub height: usize,
    pub below: Vec<usize>,
}

impl Model for Frame {
    ghost use Rattle.std.specs.Prelude.{map};
    ghost use Rattle.plan_notation.specs.Frames.{FrameSeen};

    ghost Value = { FrameSeen };

    ghost view = { λ f. record {
      word = f.word;
      at = f.at;
      child = f.child.items;
      arguments = map (λ piece. piece.items) f.arguments.items;
      height = f.height;
      below = f.below.items;
    } };
}

impl Frame {
    /// With one argument more.
    pub(crate) fn with_argument(mut self, argument: Piece) -> Result<Frame, AllocError>
        ensures { IfOk result (λ frame. frame ≡ with_argument argument.items self) }
    {
        self.arguments.push(argument)?;
        Ok(self)
    }

    /// With a sender as one argument more.
    pub(crate) fn with_sender(mut self, sender: Done) -> Result<Frame, AllocError>
        ensures { IfOk result (λ frame. frame ≡ with_sender sender self) }
    {
        self.arguments.push(sender.text)?;
        self.below.push(sender.number)?;
        if self.height < sender.height {
            self.height = sender.height;
        }
        Ok(self)
    }

    /// Over this sender.
    pub(crate) fn over(mut self, sender: Done) -> Result<Frame, AllocError>
        ensures { IfOk result (λ frame. frame ≡ frame_over sender self) }
    {
        self.below.push(sender.number)?;
        self.child = sender.text;
        self.height = sender.height;
        Ok(self)
    }

    /// How many arguments there are.
    pub(crate) fn count(&self) -> usize
        ensures { result ≡ length self.now.arguments }
    {
        self.arguments.len()
    }

    /// The word.
    pub(crate) fn word(&self) -> NodeWord
        ensures { result ≡ self.now.word }
    {
        self.word
    }
}
