//! Why a text is none of a trace or a schedule.
use std::alloc::AllocError;
use std::error::Error;
use std::fmt;

/// Why nothing was read.
#[derive(Clone, Copy, Debug, PartialEq, Eq)]
pub enum TraceFault {
    /// The text has more than `FILE_BYTES` bytes.
    TooLong,
    /// This line, from 1, is the first that is missing, has no line feed at its end, isn't of the
    /// form, names a hand, a block, a node or a child that isn't there, is an entry too many, or is
    /// that of the first node that breaks a rule of trees.
    Line(u32),
    /// There was no memory to read it.
    NoMemory,
}

impl fmt::Display for TraceFault {
    fn fmt<W: fmt::Write>(&self, f: &mut fmt::Formatter<W>) -> fmt::Result {
        match self {
            TraceFault::TooLong => f.write_str("too long"),
            TraceFault::Line(line) => write!(f, "line {line}"),
            TraceFault::NoMemory => f.write_str("no memory"),
        }
    }
}

impl Error for TraceFault {}

impl From<AllocError> for TraceFault {
    ghost use Rattle.std.specs.Prelude.{◌≡◌};
    ghost use Rattle.trace_text.specs.declared.fault.TraceFault.TheVariants.{NoMemory};

    ghost from_gives = { λ _ fault. fault ≡ NoMemory };

    fn from(_: AllocError) -> TraceFault {
        TraceFault::NoMemory
    }
}
