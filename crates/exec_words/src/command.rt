//! What a list of words may ask for.

/// In which order a worker takes the names that are pending with it.
#[derive(Clone, Copy, Debug, PartialEq, Eq)]
pub enum Order {
    /// The name that came first.
    Fifo,
    /// The name that came last.
    Lifo,
}

/// How the operations of records are run.
#[derive(Clone, Copy, Debug, PartialEq, Eq)]
pub struct Options {
    /// How many workers serve the pool, from 0 to `MOST_WORKERS`.
    pub workers: u32,
    /// How many records are worked on at once, from 1 to `MOST_WINDOW`.
    pub window: u32,
    /// In which order each worker takes its names.
    pub order: Order,
}

/// What a list of words asks for.
#[derive(Clone, Copy, Debug, PartialEq, Eq)]
pub enum Command<'a> {
    /// `run PLAN`: to run the plan of this name over the records that are read, and to print a line
    /// for each, or one line of numbers for all.
    Run {
        plan: &'a str,
        options: Options,
        summary: bool,
    },
    /// `gen PLAN N`: to run the plan over so many generated records, from 0 to `MOST_GENERATED`,
    /// and to print one line of numbers for all.
    Gen {
        plan: &'a str,
        records: u32,
        options: Options,
    },
    /// `replay FILE`: to make a trace of the schedule of this name.
    Replay {
        file: &'a str,
    },
    /// `check FILE`: to judge the trace of this name.
    Check {
        file: &'a str,
    },
}
