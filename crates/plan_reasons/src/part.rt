//! The keys of plans, nodes and jobs, and what each takes.
ghost use Rattle.std.specs.Prelude.{◌≡◌};
ghost use Rattle.plan_reasons.specs.Parts.{is_values, part_key, wanted_at};

use exec_value::{DATA, ERROR_NAME_BYTES, NUMBERS, TEXT_BYTES};
use plan_parts::MOST_PLACE;
use plan_shape::{FEWEST_CHILDREN, MOST_BODIES, MOST_CHILDREN, MOST_STOP_AFTER, MOST_TURNS};

// The numbers that sentences name are the limits that a plan is held to.
const _: () = prove!(FEWEST_CHILDREN == 2 && MOST_CHILDREN == 64);

const _: () = prove!(MOST_BODIES == 16);

const _: () = prove!(MOST_TURNS == 1_000_000 && MOST_STOP_AFTER == 1_000_000);

const _: () = prove!(DATA == 64 && MOST_PLACE == 63);

const _: () = prove!(ERROR_NAME_BYTES == 64);

const _: () = prove!(TEXT_BYTES == 4_096 && NUMBERS == 4_096);

/// A key of a plan, a node or a job.
#[derive(Clone, Copy)]
pub(crate) enum Part {
    Do,
    Root,
    Child,
    First,
    Second,
    Children,
    Bodies,
    Job,
    Pick,
    Values,
    Error,
    On,
    Turns,
    Query,
    Of,
    /// The name of a job.
    JobName,
    N,
    Lo,
    Hi,
    Text,
    I,
    Else,
    Version,
    Input,
    Scope,
    StopAfter,
    OnError,
}

impl Part {
    /// The key.
    pub(crate) fn key(self) -> &'static str
        ensures { result.now ≡ part_key self }
    {
        match self {
            Part::Do => "do",
            Part::Root => "root",
            Part::Child => "child",
            Part::First => "first",
            Part::Second => "second",
            Part::Children => "children",
            Part::Bodies => "bodies",
            Part::Job | Part::JobName => "job",
            Part::Pick => "pick",
            Part::Values => "values",
            Part::Error => "error",
            Part::On => "on",
            Part::Turns => "turns",
            Part::Query => "query",
            Part::Of => "of",
            Part::N => "n",
            Part::Lo => "lo",
            Part::Hi => "hi",
            Part::Text => "text",
            Part::I => "i",
            Part::Else => "else",
            Part::Version => "version",
            Part::Input => "input",
            Part::Scope => "scope",
            Part::StopAfter => "stop_after",
            Part::OnError => "on_error",
        }
    }

    /// Whether it is the constants of a node or a job, of which one may be wrong.
    pub(crate) fn is_values(self) -> bool
        ensures { result ≡ is_values self }
    {
        matches!(self, Part::Values)
    }

    /// What stands there.
    pub(crate) fn wanted(self) -> &'static str
        ensures { result.now ≡ wanted_at self }
    {
        match self {
            Part::Do | Part::JobName => "a string",
            Part::Root | Part::Child | Part::First | Part::Second => "a node",
            Part::Children => "an array of 2 to 64 nodes",
            Part::Bodies => "an array of 1 to 16 nodes",
            Part::Job | Part::Pick => "a job",
            Part::Values => "an array of at most 64 constants",
            Part::Error => "a name of 1 to 64 letters, digits, -, _, . and @",
            Part::On => "loop or pool",
            Part::Turns => "an integer from 0 to 1000000",
            Part::Query => "stop or record",
            Part::Of => "int or text",
            Part::N | Part::Lo | Part::Hi => "an integer of 64 bits",
            Part::Text => "a string of at most 4096 bytes",
            Part::I => "an integer from 0 to 63",
            Part::Else => "an integer of 64 bits or a string of at most 4096 bytes",
            Part::Version => "1 or 2",
            Part::Input => "int, text or row",
            Part::Scope => "simple or counting",
            Part::StopAfter => "an integer from 1 to 1000000",
            Part::OnError => "go or stop",
        }
    }
}
