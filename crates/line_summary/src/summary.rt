//! The numbers of a summary.
ghost use Rattle.std.specs.Prelude.{◌≡◌, ◌*◌, ◌<◌, ◌≤◌, ◌+◌, ◌-◌, ◌^◌, [], ◌++◌, ◌∷◌, List};
ghost use Rattle.exec_value.specs.declared.outcome.Outcome.{Outcome};
ghost use Rattle.exec_value.specs.declared.limits.TheConstants.{DATA, NUMBERS};
ghost use Rattle.exec_value.specs.Sum.{IsWithin};

use crate::sorts::{is_bad_record, is_error, is_out_of_memory, is_stopped, is_value, line_sum};
use exec_value::Outcome;

/// How many lines of each sort were counted, and the exact sum of all numbers in value lines.
#[derive(Clone, Copy, Debug)]
pub struct Summary {
    pub(crate) lines: u32,
    pub(crate) values: u32,
    pub(crate) errors: u32,
    pub(crate) stopped: u32,
    pub(crate) no_memory: u32,
    pub(crate) bad: u32,
    pub(crate) sum: i128,
    ghost few_values: { values ≤ lines },
    ghost few_errors: { errors ≤ lines },
    ghost few_stopped: { stopped ≤ lines },
    ghost few_no_memory: { no_memory ≤ lines },
    ghost few_bad: { bad ≤ lines },
    ghost within: { IsWithin (NUMBERS * DATA * lines) sum },
}

impl Summary {
    ghost use Rattle.line_summary.specs.Counting.{Summarizes, Counts};

    /// A summary that has counted nothing.
    pub fn new() -> Summary
        ensures { Summarizes result [] }
    {
        Summary {
            lines: 0,
            values: 0,
            errors: 0,
            stopped: 0,
            no_memory: 0,
            bad: 0,
            sum: 0,
        }
    }

    /// Counts one line more.
    pub fn count(&mut self, outcome: &Outcome)
        requires few { self.old.lines < 2 ^ 32 - 1 }
        ensures lines { self.new.lines ≡ self.old.lines + 1 }
        ensures counts { (outcomes : List Outcome) → Summarizes self.old outcomes →
            Summarizes self.new (outcomes ++ outcome.now ∷ []) }
    {
        self.add(outcome);
    }

    /// The same, said of the numbers.
    fn add(&mut self, outcome: &Outcome)
        requires few { self.old.lines < 2 ^ 32 - 1 }
        ensures { Counts self.old self.new outcome.now }
    {
        self.lines += 1;
        self.values += u32::from(is_value(outcome));
        self.errors += u32::from(is_error(outcome));
        self.stopped += u32::from(is_stopped(outcome));
        self.no_memory += u32::from(is_out_of_memory(outcome));
        self.bad += u32::from(is_bad_record(outcome));
        self.sum += line_sum(outcome);
    }

    /// How many lines were counted.
    pub fn lines(&self) -> u32
        ensures { result ≡ self.now.lines }
    {
        self.lines
    }

    /// How many of them are values.
    pub fn values(&self) -> u32
        ensures value { result ≡ self.now.values }
        ensures few { result ≤ self.now.lines }
    {
        self.values
    }

    /// How many of them are errors.
    pub fn errors(&self) -> u32
        ensures { result ≡ self.now.errors }
    {
        self.errors
    }

    /// How many of them are stopped.
    pub fn stopped(&self) -> u32
        ensures { result ≡ self.now.stopped }
    {
        self.stopped
    }

    /// How many of them are out-of-memory.
    pub fn no_memory(&self) -> u32
        ensures value { result ≡ self.now.no_memory }
        ensures few { result ≤ self.now.lines }
    {
        self.no_memory
    }

    /// The exact sum of the numbers of the values.
    pub fn sum(&self) -> i128
        ensures { result ≡ self.now.sum }
    {
        self.sum
    }
}
