//! What loops collected.
ghost use Rattle.std.specs.Prelude.{◌≡◌, [], ◌∷◌};
ghost use Rattle.home_items.specs.Entries.{plan_of};
ghost use Rattle.run_tally.specs.Gathered.{capped, values_in, errors_in, stopped_in, no_memory_in};
ghost use Rattle.run_loop.specs.Loops.{gathered_of};

use exec_recv::{Env, Item};
use node_walks::Collected;
use op_slot::OpTable;
use run_tally::{Counts, Placed};
use std::marker::Model;

/// The operations that a loop collected on its table, and how many completed in each way. Only a
/// loop adds to it. Contracts see the operations, the last first.
#[derive(Drop)]
pub struct Tally {
    counts: Counts,
}

impl Model for Tally {
    ghost use Rattle.std.specs.Prelude.{List};
    ghost use Rattle.run_tally.specs.Gathered.{Gathered};

    ghost Value = { List Gathered };

    ghost view = { λ t. t.counts };
}

// An operation that was started with this environment, on this table.
#[derive(Drop)]
struct Started<'a> {
    env: &'a Env,
    table: &'a OpTable<Item>,
}

impl<'a> Placed for Started<'a> {
    ghost use Rattle.home_items.specs.Entries.{plan_of};

    ghost plan = { λ s. plan_of s.env.now };

    ghost table = { λ s. s.table.now.table_id };
}

impl Tally {
    /// Of no operation.
    pub fn new() -> Tally
        ensures { result ≡ [] }
    {
        Tally {
            counts: Counts::new(),
        }
    }

    /// An equal one.
    pub fn copy(&self) -> Tally
        ensures { result ≡ self.now }
    {
        Tally {
            counts: self.counts.copy(),
        }
    }

    /// Adds an operation that was started with this environment on this table, and collected so.
    pub(crate) fn raise(&mut self, env: &Env, table: &OpTable<Item>, collected: &Collected)
        ensures { self.new ≡
            gathered_of (plan_of env.now) table.now.table_id collected.now ∷ self.old }
    {
        let of = Started { env, table };
        self.counts
            .add(&of, collected.number, &collected.completion);
    }

    /// How many completed with a value, up to the greatest number of 64 bits.
    pub fn values(&self) -> u64
        ensures { result ≡ capped (values_in self.now) }
    {
        self.counts.values()
    }

    /// How many completed with an error.
    pub fn errors(&self) -> u64
        ensures { result ≡ capped (errors_in self.now) }
    {
        self.counts.errors()
    }

    /// How many completed stopped.
    pub fn stopped(&self) -> u64
        ensures { result ≡ capped (stopped_in self.now) }
    {
        self.counts.stopped()
    }

    /// How many completed with want of memory.
    pub fn no_memory(&self) -> u64
        ensures { result ≡ capped (no_memory_in self.now) }
    {
        self.counts.no_memory()
    }
}
