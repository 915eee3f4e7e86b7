//! What lies in a home of a table over a plan.
ghost use Rattle.std.specs.Prelude.{◌≡◌, true, false, None, Some};
ghost use Rattle.exec_value.specs.declared.outcome.Completion.TheVariants.{Value};
ghost use Rattle.plan_rules.specs.Allowed.{IsFailure};
ghost use Rattle.home_items.specs.Contents.{Start, Rest, Done};
ghost use Rattle.home_items.specs.Entries.{carried_of, record_number, asked_of, child_of};
ghost use Rattle.home_items.specs.Items.{start_in, parcel_in, GoesOn, HasCompleted, state_of};
ghost use Rattle.home_items.specs.Parcels.{MayDeliver, delivery_of, parcel_with};
ghost use Rattle.home_items.specs.Starts.{IsStart};

use crate::entry::Entry;
use crate::env::Env;
use crate::parcel::{Label, Parcel};
use crate::shown::{Shown, Shows};
use exec_value::{Completion, Data};
use plan_rules::NodeId;
use plan_shape::Plan;
use std::alloc::Global;
use std::marker::Model;
use std::mem;
use table_rules::Cargo;

/// What the completions of several children come to.
pub trait Gathers {
    ghost use Rattle.home_items.specs.Parcels.{Delivery, delivery_of};

    /// How one more is added.
    ghost adds: { Self → Self → Delivery → Type 0 };

    /// One more, where it lies. What is left there is no more wanted.
    fn gather(&mut self, label: Label, done: &mut Completion)
        ensures { adds self.old self.new (delivery_of label done.old) };
}

/// How far the node of a home has come.
#[derive(Clone, Copy, Debug, PartialEq, Eq)]
pub enum State {
    /// It has its start, and has begun nothing yet.
    Start,
    /// It goes on later.
    Rest,
    /// It goes on later, and keeps what its child completed with.
    Kept,
    /// It has completed.
    Done,
}

/// What lies in the home of a node. It is changed where it lies: a node that goes on leaves its
/// arguments here, and a completion comes from the child's home into the node's own.
///
///     Start --rest--> Rest --keep--> Kept --take_kept--> Rest
///     Start, Rest, Kept --end--> Done --take_done--> worth nothing: the home is emptied
#[derive(Drop)]
pub struct Item {
    pub(crate) state: State,
    asked: bool,
    pub(crate) saw: bool,
    number: u32,
    child: Option<NodeId>,
    pub(crate) args: Data,
    pub(crate) completion: Completion,
    shown: Shown,
    /// The start of the node that completed so.
    pub(crate) from: Shown,
}

impl Model for Item {
    ghost use Rattle.home_items.specs.Contents.{Content};

    ghost Value = { Content };

    ghost use Rattle.home_items.specs.Keeping.{content_of, IsKept};

    ghost view = { content_of };

    ghost invariant = { IsKept };
}

impl Shows for Item {
    ghost use Rattle.home_items.specs.Items.{start_in};

    ghost start = { start_in };
}

impl Item {
    /// The item of a node that begins with this environment. It takes no memory.
    #[inline(always)]
    pub fn starting(env: Env) -> Item
        ensures { result ≡ Start env }
    {
        let Env {
            args,
            number,
            asked,
            child,
            shown,
        } = env;
        Item {
            state: State::Start,
            asked,
            saw: false,
            number,
            child,
            args,
            completion: Completion::Stopped,
            from: Shown::of(&shown),
            shown,
        }
    }

    /// How far the node has come.
    #[inline(always)]
    pub fn state(&self) -> State
        ensures { result ≡ state_of self.now }
    {
        self.state
    }

    /// The data with which a node that goes on runs.
    #[inline(always)]
    pub fn args(&self) -> &Data
        requires { GoesOn self.now }
        ensures { result.now ≡ carried_of (start_in self.now) }
    {
        &self.args
    }

    /// The record's number.
    #[inline(always)]
    pub fn number(&self) -> u32
        requires { GoesOn self.now }
        ensures { result ≡ record_number (start_in self.now) }
    {
        self.number
    }

    /// Whether the scope's request was made before the operation was started.
    #[inline(always)]
    pub fn asked(&self) -> bool
        requires { GoesOn self.now }
        ensures { result ≡ asked_of (start_in self.now) }
    {
        self.asked
    }

    /// The child that the operation runs, in a start of the receiver node; else none.
    #[inline(always)]
    pub fn child(&self) -> Option<NodeId>
        requires { GoesOn self.now }
        ensures { result ≡ child_of (start_in self.now) }
    {
        self.child
    }

    /// What every item of a node that goes on keeps: it shows a start.
    #[inline(always)]
    pub fn known(&self)
        requires { GoesOn self.now }
        ensures { IsStart (start_in self.now) }
    {
        let _ = &self.shown;
    }

    /// The node goes on later, and keeps nothing.
    #[inline(always)]
    pub fn rest(&mut self)
        requires { GoesOn self.old }
        ensures { self.new ≡ Rest (start_in self.old) None }
    {
        self.state = State::Rest;
    }

    /// The node has completed so: that moves into its home. True where it failed: by an error, or
    /// stopped.
    #[inline(always)]
    pub fn end(&mut self, done: &mut Completion, saw: bool) -> bool
        requires goes_on { GoesOn self.old }
        requires may { MayDeliver (start_in self.old) saw done.old }
        ensures ended { self.new ≡ Done (parcel_with (start_in self.old) done.old saw) }
        ensures on { result ≡ true → IsFailure done.old }
        ensures off { IsFailure done.old → result ≡ true }
    {
        let failed = has_failed(done);
        self.state = State::Done;
        self.saw = saw;
        self.from = Shown::of(&self.shown);
        self.completion.put(mem::replace(done, Completion::Stopped));
        failed
    }

    /// The node has completed with the data with which it runs as a value.
    #[inline(always)]
    pub fn end_with_args(&mut self, alloc: Global)
        requires goes_on { GoesOn self.old }
        requires may { MayDeliver (start_in self.old) false
            (Value (carried_of (start_in self.old))) }
        ensures { self.new ≡ Done
            (parcel_with (start_in self.old) (Value (carried_of (start_in self.old))) false) }
    {
        self.state = State::Done;
        self.saw = false;
        self.from = Shown::of(&self.shown);
        let args = mem::replace(&mut self.args, Data::empty(alloc));
        self.completion.put(Completion::Value(args));
    }

    /// The environment of a node that goes on, and what it keeps of its child.
    #[inline(always)]
    pub fn open(self) -> (Env, Option<Parcel>)
        requires { GoesOn self }
        ensures env { result.0 ≡ start_in self }
        ensures kept { result.1 ≡ parcel_in self }
    {
        let Item {
            state,
            asked,
            saw,
            number,
            child,
            args,
            completion,
            shown,
            from,
        } = self;
        let env = Env {
            args,
            number,
            asked,
            child,
            shown,
        };
        match state {
            State::Kept => {
                let parcel = Parcel {
                    completion,
                    saw,
                    shown: from,
                };
                (env, Some(parcel))
            }
            _ => (env, None),
        }
    }
}

// The completion is an error or stopped.
#[inline(always)]
fn has_failed(completion: &Completion) -> bool
    ensures on { result ≡ true → IsFailure completion.now }
    ensures off { IsFailure completion.now → result ≡ true }
{
    matches!(completion, Completion::Error(_) | Completion::Stopped)
}

impl Cargo for Item {
    ghost use Rattle.home_items.specs.Entries.{plan_of, drawn_of};
    ghost use Rattle.home_items.specs.Items.{start_in, HasCompleted, lot_of};
    ghost use Rattle.home_items.specs.Bounds.{least_of};
    ghost use Rattle.home_items.specs.Fits.{FitsHome, MayRest, fits-widens, fits-blames};

    type Entry = Entry;

    type Over = Plan;

    ghost start = { start_in };

    ghost ends = { HasCompleted };

    ghost fits = { FitsHome };

    ghost least = { least_of };

    ghost rests = { MayRest };

    ghost key = { plan_of };

    ghost lot = { lot_of };

    ghost drawn = { drawn_of };

    ghost widens = { fits-widens };

    ghost blames = { fits-blames };
}
