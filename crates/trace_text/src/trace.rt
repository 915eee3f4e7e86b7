//! Traces: what hands did, one event after another.
ghost use Rattle.std.specs.Prelude.{◌≡◌, ◌≤◌, length, IsTrue};
ghost use Rattle.std.specs.List.{list_all};
ghost use Rattle.trace_text.specs.Values.{IsTrace, has_entry};
ghost use Rattle.trace_text.specs.declared.limits.TheConstants.{ENTRIES};

use crate::entry::Entry;
use crate::opening::Opening;
use std::marker::Model;

/// A trace: what it opens with, and its entries, at most `ENTRIES`. All that they name is there.
#[derive(Debug, Drop)]
pub struct Trace {
    opening: Opening,
    entries: Vec<Entry>,
}

impl Model for Trace {
    ghost use Rattle.trace_text.specs.Values.{TraceValue, IsTrace};

    ghost Value = { TraceValue };

    ghost use Rattle.trace_text.specs.TraceInside.{trace_of};

    ghost view = { trace_of };

    ghost invariant = { λ t. IsTrace (trace_of t) };
}

impl Trace {
    /// The trace of these entries, which name only what is there.
    pub fn new(opening: Opening, entries: Vec<Entry>) -> Trace
        requires few { length entries.items ≤ ENTRIES }
        requires each { IsTrue (list_all (has_entry opening) entries.items) }
        ensures { result ≡ record { opening = opening; entries = entries.items } }
    {
        let _tree = opening.tree();
        Trace { opening, entries }
    }

    /// What it opens with.
    pub fn opening(&self) -> &Opening
        ensures opening { result.now ≡ self.now.opening }
        ensures trace { IsTrace self.now }
    {
        &self.opening
    }

    /// The entries, in order.
    pub fn entries(&self) -> &[Entry]
        ensures { result.now ≡ self.now.entries }
    {
        &self.entries
    }
}
