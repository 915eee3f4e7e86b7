//! Why a command has no answer to a file.

/// Why a file has no answer.
#[derive(Clone, Copy, Debug, PartialEq, Eq)]
pub enum FileFault<C> {
    /// Its bytes are refused for this cause.
    Refused(C),
    /// The shelf failed.
    ReadFault,
    /// There was no memory for the bytes or the answer.
    NoMemory,
}
