//! How the tokens of a sender are read, one after the other.
//!
//!     Start --a node--> Bracket --> First, Argument --its last bracket--> Behind
//!     Behind --a bar--> Adaptor --a node--> Bracket
//!
//! The nodes whose arguments are being read are a stack; the JSON of each that is done is put
//! together from that of its parts.
ghost use Rattle.std.specs.Prelude.{◌≡◌, [], IfOk, OnOk, MatchOption};
ghost use Rattle.plan_notation.specs.Assembled.{plan_json};
ghost use Rattle.plan_notation.specs.Machine.{Steps, after_input, after_setting, machine_at_start, has_none, is_behind, is_text_done, pushed, start, start_input, token_step, setting_told, without_sender};

use crate::arguments::{argument_text, is_kind, token_name};
use crate::assembled::plan_json;
use crate::frame::{Done, Frame, Spot};
use crate::grammar::{Setting, setting_of_name, wanted_by_setting};
use crate::joined::Piece;
use crate::said::Said;
use crate::wanted::{Fault, Wanted, refused};
use plan_parts::JobWord;
use plan_reader::{Leaf, NodeWord};
use plan_words::{Token, TokenKind};
use std::alloc::{AllocError, Global};
use std::marker::Model;
use std::mem;

/// What may come next.
#[derive(Clone, Copy)]
pub enum Expect {
    /// A setting, or the first node.
    Start,
    /// The value of a setting, whose word stands there.
    Setting(Setting, usize),
    /// `input` was read, there: the kind of the records, or what follows the node.
    Input(usize),
    /// A node that takes the sender.
    Adaptor,
    /// The bracket before arguments.
    Bracket,
    /// An argument, or the bracket behind none.
    First,
    Argument,
    /// A constant of this job, or what follows the job.
    Job(JobWord),
    /// What follows an argument.
    Separator,
    /// What follows a sender.
    Behind,
}

/// Where the reading of a text stands.
#[derive(Drop)]
pub(crate) struct Machine {
    pub alloc: Global,
    pub said: Said,
    pub expect: Expect,
    pub sender: Done,
    pub frames: Vec<Frame>,
    pub constants: Vec<Piece>,
    pub spots: Vec<Spot>,
}

impl Model for Machine {
    ghost use Rattle.std.specs.Prelude.{map, reverse};
    ghost use Rattle.plan_notation.specs.States.{MachineState};

    ghost Value = { MachineState };

    ghost view = { λ m. record {
      said = m.said;
      expect = m.expect;
      sender = m.sender;
      frames = reverse m.frames.items;
      constants = map (λ piece. piece.items) m.constants.items;
      spots = m.spots.items;
    } };
}

impl Machine {
    /// Before the first token.
    pub(crate) fn new(alloc: Global) -> Result<Machine, AllocError>
        ensures { IfOk result (λ machine. machine ≡ machine_at_start) }
    {
        Ok(Machine {
            alloc,
            said: Said::nothing(alloc)?,
            expect: Expect::Start,
            sender: Done {
                text: Vec::new(alloc),
                height: 0,
                number: 0,
            },
            frames: Vec::new(alloc),
            constants: Vec::new(alloc),
            spots: Vec::new(alloc),
        })
    }

    /// Takes the next token.
    pub(crate) fn step(&mut self, token: &Token) -> Result<(), Fault>
        ensures { Steps (token_step token.now self.old) self.new result }
    {
        match self.expect {
            Expect::Start => self.start(token),
            Expect::Setting(setting, at) => self.after_setting(setting, at, token),
            Expect::Input(at) => self.after_input(at, token),
            Expect::Adaptor => self.begin_adaptor(token),
            Expect::Bracket => {
                if !is_kind(token, TokenKind::Open) {
                    return Err(refused(token.at(), Wanted::Bracket));
                }
                self.expect = Expect::First;
                Ok(())
            }
            Expect::First => {
                if is_kind(token, TokenKind::Close) {
                    self.close(token)
                } else {
                    self.argument(token)
                }
            }
            Expect::Argument => self.argument(token),
            Expect::Job(job) => self.after_job(job, token),
            Expect::Separator => self.separator(token),
            Expect::Behind => self.after_sender(token),
        }
    }

    /// At the head of the text: a setting, or the first node.
    fn start(&mut self, token: &Token) -> Result<(), Fault>
        ensures { Steps (start token.now self.old) self.new result }
    {
        match setting_of_name(token_name(token)) {
            Some(Setting::Input) => {
                self.expect = Expect::Input(token.at());
                Ok(())
            }
            Some(setting) => {
                self.expect = Expect::Setting(setting, token.at());
                Ok(())
            }
            None => self.begin_sender(token),
        }
    }

    /// The value of a setting.
    fn after_setting(&mut self, setting: Setting, at: usize, token: &Token) -> Result<(), Fault>
        ensures { Steps (after_setting setting at token.now self.old) self.new result }
    {
        let value = argument_text(self.alloc, wanted_by_setting(setting), token)?;
        self.tell(setting, value, at)?;
        Ok(())
    }

    /// Takes the setting's value.
    fn tell(&mut self, setting: Setting, value: Piece, at: usize) -> Result<(), AllocError>
        ensures { OnOk result (self.new ≡ setting_told setting value.items at self.old) }
    {
        self.said.tell(self.alloc, setting, value, at)?;
        self.expect = Expect::Start;
        Ok(())
    }

    /// Behind `input`: a word is the kind of the records.
    fn after_input(&mut self, at: usize, token: &Token) -> Result<(), Fault>
        ensures { Steps (after_input at token.now self.old) self.new result }
    {
        if is_kind(token, TokenKind::Word) {
            return self.after_setting(Setting::Input, at, token);
        }
        self.start_input(at)?;
        self.after_sender(token)
    }

    /// The node `input`, whose word stands there.
    pub(crate) fn start_input(&mut self, at: usize) -> Result<(), Fault>
        ensures { Steps (start_input at self.old) self.new result }
    {
        self.begin(NodeWord::Leaf(Leaf::Input), at, None)
    }

    /// The sender that is done.
    pub(crate) fn take_sender(&mut self) -> Done
        ensures sender { result ≡ self.old.sender }
        ensures rest { self.new ≡ without_sender self.old }
    {
        let none = Done {
            text: Vec::new(self.alloc),
            height: 0,
            number: 0,
        };
        mem::replace(&mut self.sender, none)
    }

    /// Puts a node on the stack.
    #[tactic(auto, using(crate::proofs::Stacks::reverse_push))]
    pub(crate) fn push(&mut self, frame: Frame) -> Result<(), AllocError>
        ensures { OnOk result (self.new ≡ pushed frame self.old) }
    {
        self.frames.push(frame)?;
        Ok(())
    }

    /// Takes the node from the top of the stack.
    #[tactic(auto, using(crate::proofs::Stacks::reverse_push))]
    pub(crate) fn pop(&mut self) -> Option<Frame>
        ensures { MatchOption result
            ((self.old.frames ≡ []) × (self.new ≡ self.old))
            (λ frame. self.old ≡ pushed frame self.new) }
    {
        self.frames.pop()
    }

    /// What may come next.
    pub(crate) fn expect(&self) -> Expect
        ensures { result ≡ self.now.expect }
    {
        self.expect
    }

    /// Whether a sender is done that no node has as an argument.
    pub(crate) fn is_done(&self) -> bool
        ensures { result ≡ is_text_done self.now }
    {
        is_behind(self.expect()) && self.has_none()
    }

    /// Whether no node's arguments are being read.
    fn has_none(&self) -> bool
        ensures { result ≡ has_none self.now.frames }
    {
        self.frames.is_empty()
    }

    /// The JSON of a plan with the sender that is done.
    pub(crate) fn json(&self, alloc: Global) -> Result<Piece, AllocError>
        ensures { IfOk result (λ text. text.items
            ≡ plan_json self.now.said self.now.sender.text) }
    {
        plan_json(alloc, self.said(), self.sender_text())
    }

    /// The settings.
    fn said(&self) -> &Said
        ensures { result.now ≡ self.now.said }
    {
        &self.said
    }

    /// The JSON of the sender that is done.
    fn sender_text(&self) -> &[u8]
        ensures { result.now ≡ self.now.sender.text }
    {
        self.sender.text()
    }

    /// Where the scope is told.
    pub(crate) fn scope_at(&self) -> usize
        ensures { result ≡ self.now.said.scope_at }
    {
        self.said.scope_at()
    }

    /// The nodes that are done.
    pub(crate) fn into_spots(self) -> Vec<Spot>
        ensures { result.items ≡ self.spots }
    {
        self.spots
    }
}

/// Whether a bar or the end may come next.
fn is_behind(expect: Expect) -> bool
    ensures { result ≡ is_behind expect }
{
    matches!(expect, Expect::Behind)
}
