//! How many lines of which sorts a part has.
ghost use Rattle.std.specs.Prelude.{◌≡◌, ◌<◌, ◌≤◌, ◌+◌, ◌-◌, ◌^◌, [], ◌++◌, ◌∷◌, List, ℕ, Some};
ghost use Rattle.part_lines.specs.Sorts.{sort_of};

use crate::sort::Sort;

/// How many lines were counted, and how many of them are values and out-of-memory.
#[derive(Clone, Copy, Debug)]
pub struct Tally {
    pub(crate) lines: u64,
    pub(crate) values: u64,
    pub(crate) no_memory: u64,
    ghost few_values: { values ≤ lines },
    ghost few_no_memory: { no_memory ≤ lines },
}

impl Tally {
    ghost use Rattle.part_lines.specs.Tallies.{Tallies};

    /// A tally that has counted nothing.
    pub fn new() -> Tally
        ensures { Tallies result [] }
    {
        Tally {
            lines: 0,
            values: 0,
            no_memory: 0,
        }
    }

    /// Counts one line more.
    #[inline(always)]
    pub fn count(&mut self, sort: Sort)
        requires few { self.old.lines < 2 ^ 64 - 1 }
        ensures lines { self.new.lines ≡ self.old.lines + 1 }
        ensures counts { (said : List (List ℕ)) (words : List ℕ) → Tallies self.old said
            → sort_of words ≡ Some sort → Tallies self.new (said ++ words ∷ []) }
    {
        self.lines += 1;
        self.values += u64::from(sort == Sort::Value);
        self.no_memory += u64::from(sort == Sort::NoMemory);
    }

    /// Counts the lines of a further part.
    pub fn add(&mut self, other: &Tally)
        requires few { self.old.lines + other.now.lines < 2 ^ 64 }
        ensures lines { self.new.lines ≡ self.old.lines + other.now.lines }
        ensures counts { (said more : List (List ℕ)) → Tallies self.old said
            → Tallies other.now more → Tallies self.new (said ++ more) }
    {
        self.lines += other.lines;
        self.values += other.values;
        self.no_memory += other.no_memory;
    }

    /// How many lines were counted.
    pub fn lines(&self) -> u64
        ensures { result ≡ self.now.lines }
    {
        self.lines
    }

    /// How many of them are values.
    pub fn values(&self) -> u64
        ensures { result ≡ self.now.values }
    {
        self.values
    }

    /// How many of them are out-of-memory.
    pub fn no_memory(&self) -> u64
        ensures { result ≡ self.now.no_memory }
    {
        self.no_memory
    }
}
