//! How many operations completed in each way.
ghost use Rattle.std.specs.Prelude.{◌≡◌, [], ◌∷◌};
ghost use Rattle.run_tally.specs.Gathered.{capped, gathered, values_in, errors_in, stopped_in, no_memory_in};

use crate::log::{Lists, Log};
use exec_value::Completion;
use std::marker::Model;

/// Of which plan an operation is, and on which table it ran.
pub trait Placed {
    ghost use Rattle.atomic_table.specs.Seated.{TableId};
    ghost use Rattle.plan_shape.specs.Blueprint.{Blueprint};

    ghost plan: { Self → Blueprint };

    ghost table: { Self → TableId };
}

/// How many operations were collected with each kind of completion ([exec.recv]), want of memory
/// among them. Contracts see the operations themselves, the last first.
#[derive(Drop)]
pub struct Counts {
    values: u64,
    errors: u64,
    stopped: u64,
    no_memory: u64,
    log: Log,
}

impl Model for Counts {
    ghost use Rattle.std.specs.Prelude.{List};
    ghost use Rattle.run_tally.specs.Gathered.{Gathered, AreCounted};

    ghost Value = { List Gathered };

    ghost view = { λ t. t.log.entries };

    ghost invariant = { λ t. AreCounted t.values t.errors t.stopped t.no_memory t.log.entries };
}

// No operation.
#[derive(Drop)]
struct Nothing {}

impl Lists for Nothing {
    ghost use Rattle.std.specs.Prelude.{[]};

    ghost entries = { λ _. [] };
}

// The same operations.
impl Lists for Counts {
    ghost entries = { λ all. all };
}

// One operation more.
#[derive(Drop)]
struct More<'a, P: Placed> {
    before: &'a Counts,
    of: &'a P,
    number: u32,
    completion: &'a Completion,
}

impl<'a, P: Placed> Lists for More<'a, P> {
    ghost use Rattle.std.specs.Prelude.{◌∷◌};
    ghost use Rattle.run_tally.specs.Gathered.{gathered};

    ghost entries = { λ m.
        gathered (P.plan m.of.now) (P.table m.of.now) m.number m.completion.now
        ∷ m.before.now };
}

impl Counts {
    /// Of no operation: four zeros.
    pub fn new() -> Counts
        ensures { result ≡ [] }
    {
        Counts {
            values: 0,
            errors: 0,
            stopped: 0,
            no_memory: 0,
            log: Log::of(&Nothing {}),
        }
    }

    /// An equal one.
    pub fn copy(&self) -> Counts
        ensures { result ≡ self.now }
    {
        Counts {
            values: self.values,
            errors: self.errors,
            stopped: self.stopped,
            no_memory: self.no_memory,
            log: Log::of(self),
        }
    }

    /// Adds an operation of this plan and this table, for the record of this number, that completed
    /// so.
    pub fn add<P: Placed>(&mut self, of: &P, number: u32, completion: &Completion)
        ensures { self.new ≡ gathered
            (P.plan of.now) (P.table of.now) number completion.now ∷ self.old }
    {
        let log = Log::of(&More {
            before: &*self,
            of,
            number,
            completion,
        });
        match completion {
            Completion::Value(_) => self.values = self.values.saturating_add(1),
            Completion::Error(_) => self.errors = self.errors.saturating_add(1),
            Completion::Stopped => self.stopped = self.stopped.saturating_add(1),
            Completion::NoMemory => self.no_memory = self.no_memory.saturating_add(1),
        }
        self.log = log;
    }

    /// How many completed with a value, up to the greatest number of 64 bits.
    pub fn values(&self) -> u64
        ensures { result ≡ capped (values_in self.now) }
    {
        self.values
    }

    /// How many completed with an error.
    pub fn errors(&self) -> u64
        ensures { result ≡ capped (errors_in self.now) }
    {
        self.errors
    }

    /// How many completed stopped.
    pub fn stopped(&self) -> u64
        ensures { result ≡ capped (stopped_in self.now) }
    {
        self.stopped
    }

    /// How many completed with want of memory.
    pub fn no_memory(&self) -> u64
        ensures { result ≡ capped (no_memory_in self.now) }
    {
        self.no_memory
    }
}
