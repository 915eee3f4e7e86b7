//! Schedules: which hand takes which of its steps, one after another.
ghost use Rattle.std.specs.Prelude.{◌≡◌, ◌≤◌, length, IsTrue};
ghost use Rattle.std.specs.List.{list_all};
ghost use Rattle.trace_text.specs.Values.{IsSchedule, has_choice};
ghost use Rattle.trace_text.specs.declared.limits.TheConstants.{ENTRIES};

use crate::entry::Choice;
use crate::opening::Opening;
use std::marker::Model;

/// A schedule: what it opens with, and its entries, at most `ENTRIES`. Their hands are there.
#[derive(Debug, Drop)]
pub struct Schedule {
    opening: Opening,
    entries: Vec<Choice>,
}

impl Model for Schedule {
    ghost use Rattle.trace_text.specs.Values.{ScheduleValue, IsSchedule};

    ghost Value = { ScheduleValue };

    ghost use Rattle.trace_text.specs.ScheduleInside.{schedule_of};

    ghost view = { schedule_of };

    ghost invariant = { λ t. IsSchedule (schedule_of t) };
}

impl Schedule {
    /// The schedule of these entries, whose hands are there.
    pub fn new(opening: Opening, entries: Vec<Choice>) -> Schedule
        requires few { length entries.items ≤ ENTRIES }
        requires each { IsTrue (list_all (has_choice opening) entries.items) }
        ensures { result ≡ record { opening = opening; entries = entries.items } }
    {
        let _tree = opening.tree();
        Schedule { opening, entries }
    }

    /// What it opens with.
    pub fn opening(&self) -> &Opening
        ensures opening { result.now ≡ self.now.opening }
        ensures schedule { IsSchedule self.now }
    {
        &self.opening
    }

    /// The entries, in order.
    pub fn entries(&self) -> &[Choice]
        ensures { result.now ≡ self.now.entries }
    {
        &self.entries
    }
}
