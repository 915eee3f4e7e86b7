//! How what the children of a `when_all` delivered comes together ([exec.when.all]).
ghost use Rattle.std.specs.Prelude.{◌≡◌, ◌&&◌, ℕ, Some};
ghost use Rattle.home_items.specs.Parcels.{Delivery};
ghost use Rattle.start_laws.specs.AllEnds.{is_failure};
ghost use Rattle.exec_all.specs.Joined.{is_want, TellsSeen, Notes, IsJoined, AddsLate, Adds, Finishes, PutsBoth};

use exec_value::Completion;
use home_items::Gathers;
use node_images::{NoRoom, Together, join_child, no_children, put_together};
use std::alloc::Global;
use step_parts::Label;

/// What the parcels of some children come to.
#[derive(Drop)]
pub(crate) struct Joining {
    alloc: Global,
    /// Those with a value, and those that failed without having seen a request.
    front: Together,
    /// Those that failed and had seen one.
    late: Option<Together>,
    /// Some saw a request.
    saw: bool,
    /// Some failed without having seen one.
    first: bool,
    /// Some wants memory.
    want: bool,
}

// The completion is an error or stopped.
fn is_failure(done: &Completion) -> bool
    ensures { result ≡ is_failure done.now }
{
    matches!(done, Completion::Error(_) | Completion::Stopped)
}

// The completion is want of memory.
fn is_want(done: &Completion) -> bool
    ensures { result ≡ is_want done.now }
{
    matches!(done, Completion::NoMemory)
}

// Both are so.
pub(crate) fn both(one: bool, other: bool) -> bool
    ensures { result ≡ (one && other) }
{
    one && other
}

// What it saw, where this is what all complete with.
fn saw_together(done: &Completion, saw: bool, first: bool) -> bool
    ensures { TellsSeen done.now saw first result }
{
    match done {
        Completion::Value(_) => saw,
        _ => !first,
    }
}

// Puts what all complete with together in its place, where some failed late: these are joined
// behind the others.
#[cold]
#[inline(never)]
fn put_late(front: Together, late: Together, done: &mut Completion) -> Result<(), NoRoom>
    ensures { PutsBoth front (Some late) done.new result }
{
    let mut front = front;
    let mut behind = Completion::Stopped;
    match put_together(late, &mut behind) {
        Ok(()) => {
            join_child(&mut front, &mut behind);
            drop(behind);
            put_together(front, done)
        }
        Err(no_room) => {
            drop(behind);
            drop(front);
            Err(no_room)
        }
    }
}

impl Joining {
    /// No parcel yet.
    pub(crate) fn none(alloc: Global) -> Joining
        ensures { (ends : ℕ → Delivery) → IsJoined result ends 0 }
    {
        Joining {
            alloc,
            front: no_children(alloc),
            late: None,
            saw: false,
            first: false,
            want: false,
        }
    }

    // Notes of a parcel what it saw, and how it ended.
    fn note(&mut self, saw: bool, failed: bool, want: bool)
        ensures { Notes saw failed want self.old self.new }
    {
        self.saw = self.saw || saw;
        self.first = self.first || (!saw && failed);
        self.want = self.want || want;
    }

    // One parcel more of a child that failed late.
    #[cold]
    #[inline(never)]
    fn add_late(&mut self, done: &mut Completion)
        ensures { AddsLate done.old self.old self.new }
    {
        match &mut self.late {
            Some(late) => join_child(late, done),
            None => {
                let mut late = no_children(self.alloc);
                join_child(&mut late, done);
                self.late = Some(late);
            }
        }
    }

    /// Some wants memory.
    pub(crate) fn wants_memory(&self) -> bool
        ensures { result ≡ self.now.want }
    {
        self.want
    }

    /// Puts what all complete with together in its place, and tells whether a request was seen; or
    /// why there is no room for it. None of them wants memory.
    #[inline(always)]
    pub(crate) fn finish(self, done: &mut Completion) -> Result<bool, NoRoom>
        ensures { Finishes self done.new result }
    {
        let Joining {
            alloc: _,
            front,
            late,
            saw,
            first,
            want: _,
        } = self;
        match late {
            None => put_together(front, done)?,
            Some(late) => put_late(front, late, done)?,
        }
        Ok(saw_together(done, saw, first))
    }
}

impl Gathers for Joining {
    ghost adds = { Adds };

    // One parcel more, whose completion is taken from its place.
    #[inline(always)]
    fn gather(&mut self, label: Label, done: &mut Completion) {
        let saw = label.saw();
        drop(label);
        let failed = is_failure(done);
        let want = is_want(done);
        self.note(saw, failed, want);
        if both(saw, failed) {
            self.add_late(done);
            return;
        }
        join_child(&mut self.front, done);
    }
}
