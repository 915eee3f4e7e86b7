//! What a call of `run` collected, how the table of its operations was closed, and which backends
//! its workers had.
ghost use Rattle.std.specs.Prelude.{◌≡◌, Some, IfOk, OnErr};
ghost use Rattle.std.specs.Option.{option_copied};
ghost use Rattle.run_tally.specs.Gathered.{capped, values_in, errors_in, stopped_in, no_memory_in};

use crate::ending::status_of;
use exec_recv::Item;
use exec_status::Status;
use op_table::Closing;
use run_loop::Tally as Collected;
use run_workers::Given;
use std::alloc::AllocError;
use whole_run::Account;

/// The operations of a call of `run`: how many were collected with each kind of completion
/// ([exec.recv]), how the table was closed on which they ran, and which backends were given out to
/// its workers. Contracts see each operation that was collected, with its plan, its table, the
/// number of its record and its completion.
///
/// Only a loop adds to what was collected, only the closing of a table makes a [`Closing`], and
/// only an arrangement of backends a [`Given`]: so no tally but a new one is of a call that ran
/// nothing.
#[derive(Drop)]
pub struct Tally {
    collected: Collected,
    closing: Option<Closing<Item>>,
    given: Option<Given>,
}

impl Tally {
    ghost use Rattle.exec_engine.specs.Statuses.{status_of};
    ghost use Rattle.exec_engine.specs.Tallies.{IsNew};

    /// Of a call that ran nothing: four zeros, and no table.
    pub fn new() -> Tally
        ensures { IsNew result }
    {
        Tally {
            collected: Collected::new(),
            closing: None,
            given: None,
        }
    }

    /// Takes over what a run collected, how its table was closed and which backends were given out,
    /// and gives the status of the run. Where it had no memory to begin with, nothing is taken
    /// over.
    pub(crate) fn take(&mut self, answer: Result<Account, AllocError>) -> Status
        ensures collected { IfOk answer (λ a. self.new.collected ≡ a.tally) }
        ensures closing { IfOk answer (λ a. self.new.closing ≡ Some a.closing) }
        ensures given { IfOk answer (λ a. self.new.given ≡ a.given) }
        ensures status { IfOk answer (λ a. result ≡ status_of a.ending) }
        ensures same { OnErr answer (self.new ≡ self.old) }
        ensures no_memory { OnErr answer (result ≡ Status.NoMemory) }
    {
        match answer {
            Ok(account) => {
                self.collected = account.tally;
                self.closing = Some(account.closing);
                self.given = account.given;
                status_of(&account.ending)
            }
            Err(AllocError) => Status::NoMemory,
        }
    }

    /// How many operations completed with a value, up to the greatest number of 64 bits.
    pub fn values(&self) -> u64
        ensures { result ≡ capped (values_in self.now.collected) }
    {
        self.collected.values()
    }

    /// How many completed with an error.
    pub fn errors(&self) -> u64
        ensures { result ≡ capped (errors_in self.now.collected) }
    {
        self.collected.errors()
    }

    /// How many completed stopped.
    pub fn stopped(&self) -> u64
        ensures { result ≡ capped (stopped_in self.now.collected) }
    {
        self.collected.stopped()
    }

    /// How many completed with want of memory.
    pub fn no_memory(&self) -> u64
        ensures { result ≡ capped (no_memory_in self.now.collected) }
    {
        self.collected.no_memory()
    }

    /// How the table was closed, where one was opened.
    pub fn closing(&self) -> Option<&Closing<Item>>
        ensures { option_copied result ≡ self.now.closing }
    {
        self.closing.as_ref()
    }

    /// In which order backends were given out to workers, and how many, where a table was opened.
    pub fn given(&self) -> Option<Given>
        ensures { result ≡ self.now.given }
    {
        self.given
    }
}
