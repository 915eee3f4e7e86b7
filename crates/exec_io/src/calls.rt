//! The calls of an object in memory, numbered from 1, and those among them that are to fail.
ghost use Rattle.std.specs.Prelude.{◌≡◌, ◌≤◌, is_err};
ghost use Rattle.exec_io.specs.Causes.{HasCause, Rose};
ghost use Rattle.exec_io.specs.Calls.{Calls as CallsState, no_calls, is_to_fail, after_call, after_fault};

use crate::Failed;
use std::marker::Model;

#[derive(Drop)]
pub struct Calls {
    fails: Vec<u64>,
    made: u64,
    faults: u64,
}

impl Model for Calls {
    ghost Value = { CallsState };

    ghost view = { λ c. record { fails = c.fails.items; made = c.made; faults = c.faults } };
}

impl Calls {
    pub fn new(fails: Vec<u64>) -> Self
        ensures { result ≡ no_calls fails.items }
    {
        Calls {
            fails,
            made: 0,
            faults: 0,
        }
    }

    /// Counts one call more, and a fault exactly where that call is one of those that are to fail.
    pub fn begin(&mut self) -> Result<(), Failed>
        ensures answer { is_err result ≡ is_to_fail self.old }
        ensures cause { HasCause self.old.faults self.new.faults result }
        ensures after { self.new ≡ after_call self.old (is_err result) }
    {
        self.made = self.made.saturating_add(1);
        if self.fails.contains(&self.made) {
            return Err(self.fail());
        }
        Ok(())
    }

    /// Counts a fault.
    pub fn fail(&mut self) -> Failed
        ensures later { self.old.faults ≤ self.new.faults }
        ensures rose { Rose self.old.faults self.new.faults }
        ensures after { self.new ≡ after_fault self.old }
    {
        self.faults = self.faults.saturating_add(1);
        Failed
    }
}
