//! What an item keeps of its node's child, and how it gives what its node completed with.
ghost use Rattle.std.specs.Prelude.{◌≡◌, ◌≢◌, None, Some, IfSome};
ghost use Rattle.home_items.specs.Contents.{Rest, Done};
ghost use Rattle.home_items.specs.Items.{start_in, parcel_in, completion_in, saw_in, GoesOn, HasCompleted, without_parcel};
ghost use Rattle.home_items.specs.Parcels.{IsDelivery, delivery_of};

use crate::item::{Gathers, Item, State};
use crate::parcel::{Label, Parcel};
use crate::placing::empty_args;
use crate::shown::Shown;
use exec_value::Completion;
use std::alloc::Global;
use std::mem;

impl Item {
    /// The node goes on later, and keeps its child's parcel.
    #[inline(always)]
    pub fn keep(&mut self, parcel: Parcel)
        requires { GoesOn self.old }
        ensures { self.new ≡ Rest (start_in self.old) (Some parcel) }
    {
        let Parcel {
            completion,
            saw,
            shown,
        } = parcel;
        self.state = State::Kept;
        self.saw = saw;
        self.completion.put(completion);
        self.from = shown;
    }

    /// The node goes on later, and keeps what its child completed with, which moves into its home.
    #[inline(always)]
    pub fn keep_done(&mut self, label: Label, done: &mut Completion)
        requires goes_on { GoesOn self.old }
        requires lawful { IsDelivery (delivery_of label done.old) }
        ensures { self.new ≡ Rest (start_in self.old) (Some (delivery_of label done.old)) }
    {
        let Label { saw, shown } = label;
        self.state = State::Kept;
        self.saw = saw;
        self.completion.put(mem::replace(done, Completion::Stopped));
        self.from = shown;
    }

    /// Takes out what the node keeps of its child.
    #[inline(always)]
    pub fn take_kept(&mut self) -> Option<Parcel>
        requires { GoesOn self.old }
        ensures taken { result ≡ parcel_in self.old }
        ensures left { self.new ≡ without_parcel self.old }
        ensures lawful { IfSome result IsDelivery }
    {
        match self.state {
            State::Kept => {
                self.state = State::Rest;
                Some(Parcel {
                    completion: mem::replace(&mut self.completion, Completion::Stopped),
                    saw: self.saw,
                    shown: Shown::of(&self.from),
                })
            }
            _ => None,
        }
    }

    /// Takes out what the node completed with. What stays is worth nothing, and keeps nothing
    /// elsewhere in memory: the home is emptied next.
    #[inline(always)]
    pub fn take_done(&mut self, alloc: Global) -> Parcel
        requires { HasCompleted self.old }
        ensures taken { self.old ≡ Done result }
        ensures lawful { IsDelivery result }
    {
        empty_args(&mut self.args, alloc);
        Parcel {
            completion: mem::replace(&mut self.completion, Completion::NoMemory),
            saw: self.saw,
            shown: Shown::of(&self.from),
        }
    }

    /// Moves out what the node completed with, in place of what is no more wanted. What is answered
    /// says the rest. What stays is worth nothing, and keeps nothing elsewhere in memory: the home
    /// is emptied next.
    #[inline(always)]
    pub fn give_done(&mut self, alloc: Global, done: &mut Completion) -> Label
        requires { HasCompleted self.old }
        ensures taken { self.old ≡ Done (delivery_of result done.new) }
        ensures lawful { IsDelivery (delivery_of result done.new) }
    {
        empty_args(&mut self.args, alloc);
        done.put(mem::replace(&mut self.completion, Completion::NoMemory));
        Label {
            saw: self.saw,
            shown: Shown::of(&self.from),
        }
    }

    /// What the node completed with is gathered where it lies. What stays is worth nothing, and
    /// keeps nothing elsewhere in memory: the home is emptied next.
    #[inline(always)]
    pub fn give_to<A: Gathers>(&mut self, alloc: Global, all: &mut A)
        requires { HasCompleted self.old }
        ensures added { IfSome (parcel_in self.old) (A.adds all.old all.new) }
        ensures lawful { IfSome (parcel_in self.old) IsDelivery }
    {
        empty_args(&mut self.args, alloc);
        let label = Label {
            saw: self.saw,
            shown: Shown::of(&self.from),
        };
        all.gather(label, &mut self.completion);
        self.completion.empty();
    }

    /// What the node keeps of its child.
    #[inline(always)]
    pub fn kept(&self) -> &Completion
        requires { parcel_in self.now ≢ None }
        ensures shown { completion_in self.now ≡ Some result.now }
        ensures lawful { IfSome (parcel_in self.now) IsDelivery }
    {
        &self.completion
    }

    /// Whether the child of which the node keeps something saw a request.
    #[inline(always)]
    pub fn kept_saw(&self) -> bool
        requires { parcel_in self.now ≢ None }
        ensures { result ≡ saw_in self.now }
    {
        self.saw
    }
}
