//! How an operation and a record end.
ghost use Rattle.std.specs.Prelude.{◌≡◌};

use crate::data::Data;
use crate::error_text::ErrorText;
use crate::txt::Txt;
use std::mem;

/// How an operation completes ([exec.recv]: `set_value`, `set_error`, `set_stopped`). Want of
/// memory is a fourth way of this library's own.
#[derive(Clone, Debug, Drop, PartialEq, Eq)]
pub enum Completion {
    Value(Data),
    Error(ErrorText),
    Stopped,
    NoMemory,
}

impl Completion {
    /// The error of this text.
    #[inline(always)]
    pub fn error(text: Txt) -> Completion
        ensures { result ≡ Completion.Error text }
    {
        Completion::Error(ErrorText::of(text))
    }

    /// Puts a completion in place of this one, which is dropped. Where this is stopped there is
    /// nothing to drop, and it isn't read.
    #[inline(always)]
    pub fn put(&mut self, completion: Completion)
        ensures { self.new ≡ completion }
    {
        if !matches!(self, Completion::Stopped) {
            drop_in_place(self);
        }
        mem::forget(mem::replace(self, completion));
    }

    /// This completion is no more wanted: it is dropped, and want of memory stands in its place.
    /// Where it is data that stand in place there is nothing to drop.
    #[inline(always)]
    pub fn empty(&mut self)
        ensures { self.new ≡ Completion.NoMemory }
    {
        if !self.is_in_place() {
            drop_in_place(self);
        }
        mem::forget(mem::replace(self, Completion::NoMemory));
    }

    // Nothing of it lies elsewhere in memory, as far as a look tells.
    #[inline(always)]
    fn is_in_place(&self) -> bool {
        match self {
            Completion::Value(values) => values.is_in_place(),
            _ => false,
        }
    }
}

// Out of the way: where a completion is assigned over, each kind of it is dropped in that place.
#[inline(never)]
fn drop_in_place(completion: &mut Completion) {
    *completion = Completion::Stopped;
}

/// What becomes of a record.
#[derive(Clone, Debug, Drop, PartialEq, Eq)]
pub enum Outcome {
    Done(Completion),
    /// The line is no record of the input's kind.
    BadRecord,
}
