//! What is wanted where a token stands, and why a text is refused.
ghost use Rattle.std.specs.Prelude.{◌≡◌};

use std::alloc::AllocError;

/// What may stand in a place.
#[derive(Clone, Copy, Debug, PartialEq, Eq)]
pub enum Wanted {
    /// A node that begins a sender.
    Sender,
    /// A node that takes the sender before the bar.
    Adaptor,
    Job,
    /// A job over the elements of a row.
    ElementJob,
    Context,
    Query,
    /// The kind of a datum that may be missing.
    Kind,
    /// The kind of the records.
    Input,
    Scope,
    OnError,
    Version,
    Number,
    Text,
    /// A number or a text.
    Scalar,
    /// A number, a text or a row.
    Constant,
    /// The bracket before arguments.
    Bracket,
    /// The bracket behind them.
    Close,
    /// A comma, or the bracket behind arguments.
    Separator,
    /// A bar, or the end of the text.
    End,
    /// A node that stands less deep.
    Depth,
}

/// Why a text is refused: what is wanted, and how many bytes stand before the place.
#[derive(Clone, Copy, Debug, PartialEq, Eq)]
pub struct Refusal {
    pub at: usize,
    pub wanted: Wanted,
}

/// Why a text isn't read.
#[derive(Clone, Copy, Debug, PartialEq, Eq, Drop)]
pub enum Fault {
    Refused(Refusal),
    NoMemory,
}

impl From<AllocError> for Fault {
    ghost use Rattle.std.specs.Prelude.{◌≡◌};
    ghost use Rattle.plan_notation.specs.declared.wanted.Fault.TheVariants.{NoMemory};

    ghost from_gives = { λ _ fault. fault ≡ NoMemory };

    fn from(_: AllocError) -> Fault {
        Fault::NoMemory
    }
}

/// What is wanted at this offset.
pub(crate) fn refused(at: usize, wanted: Wanted) -> Fault
    ensures { result ≡ Fault.Refused (record { at = at; wanted = wanted }) }
{
    Fault::Refused(Refusal { at, wanted })
}
