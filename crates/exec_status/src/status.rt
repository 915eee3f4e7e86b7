//! The status that a run ends with.
ghost use Rattle.std.specs.Prelude.{◌≡◌};
ghost use Rattle.exec_status.specs.Status.{code_of};

/// How a run ended. Where several hold at the end, a write fault comes first, then a read fault,
/// the limit, want of memory, a line that isn't a value, and last values alone.
#[derive(Clone, Copy, Debug, PartialEq, Eq)]
pub enum Status {
    /// The input ended and all lines are values; or each entry of the trace that was checked is a
    /// step, or the schedule was replayed.
    AllValues,
    /// The input ended, no line is out-of-memory, and some line is a bad record, an error or
    /// stopped; or some entry of the trace that was checked is no step.
    NotAllValues,
    /// The words are no command.
    Usage,
    /// The plan, the trace or the schedule is refused.
    PlanRefused,
    /// There was no memory, to start with or for a line.
    NoMemory,
    /// A read of the file or of the records failed.
    ReadFault,
    /// A write of lines or of notes failed.
    WriteFault,
    /// There were more records, or more bytes of them, than a run takes.
    Limit,
}

impl Status {
    /// The exit code of a process that ends so, from 0 to 7.
    pub fn code(self) -> u8
        ensures { result ≡ code_of self }
    {
        match self {
            Status::AllValues => 0,
            Status::NotAllValues => 1,
            Status::Usage => 2,
            Status::PlanRefused => 3,
            Status::NoMemory => 4,
            Status::ReadFault => 5,
            Status::WriteFault => 6,
            Status::Limit => 7,
        }
    }
}
