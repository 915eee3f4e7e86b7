//! What the outside answers where it failed.
use std::error::Error;
use std::fmt;

/// A read or a write failed. The object's count of faults rose in the call.
#[derive(Clone, Copy, Debug, PartialEq, Eq)]
pub struct Failed;

impl fmt::Display for Failed {
    fn fmt<W: fmt::Write>(&self, f: &mut fmt::Formatter<W>) -> fmt::Result {
        write!(f, "the read or write failed")
    }
}

impl Error for Failed {}

/// Why a shelf gave no text.
#[derive(Clone, Copy, Debug, PartialEq, Eq)]
pub enum ShelfFault {
    /// The text couldn't be read, or none has this name. The shelf's count rose in the call.
    Failed,
    /// There was no memory for the text.
    NoMemory,
}

impl fmt::Display for ShelfFault {
    fn fmt<W: fmt::Write>(&self, f: &mut fmt::Formatter<W>) -> fmt::Result {
        match self {
            ShelfFault::Failed => write!(f, "the text can't be read"),
            ShelfFault::NoMemory => write!(f, "no memory for the text"),
        }
    }
}

impl Error for ShelfFault {}
