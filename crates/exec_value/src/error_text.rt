//! The text of an error, as a completion carries it.
ghost use Rattle.std.specs.Prelude.{◌≡◌, ◌≤◌, [], length, nat_eq};
ghost use Rattle.std.specs.Cmp.{partial_equiv_from_equiv};
ghost use Rattle.std.specs.Cmp.Lexicographic.{pointwise, nat_list_eq_equiv};
ghost use Rattle.exec_value.specs.Text.{IsText};
ghost use Rattle.exec_value.specs.declared.limits.TheConstants.{INLINE_BYTES};

use crate::txt::Txt;
use std::alloc::{AllocError, Global};
use std::marker::Model;
use std::mem;

/// The text of an error. A word that nobody reads stands before it in memory, so that a completion
/// is cheap to move. An enum is moved in pieces, and a piece ends only where no variant has a part
/// that lies across. A value begins with a word and a text with a byte, so that without the word a
/// completion would be moved in 8, 1 and 39 bytes, the last by way of the stack. With it the
/// pieces are of 8, 8 and 32 bytes, and stay in registers.
#[derive(Debug, Drop)]
pub struct ErrorText {
    before: usize,
    text: Txt,
}

impl Model for ErrorText {
    ghost use Rattle.std.specs.Prelude.{List, ℕ};

    ghost Value = { List ℕ };

    ghost view = { λ error. error.text };
}

impl ErrorText {
    /// The error of this text.
    #[inline(always)]
    pub(crate) fn of(text: Txt) -> ErrorText
        ensures { result ≡ text }
    {
        ErrorText { before: 0, text }
    }

    /// Its text.
    #[inline(always)]
    pub fn as_text(&self) -> &Txt
        ensures { result.now ≡ self.now }
    {
        &self.text
    }

    /// The bytes of its text.
    #[inline(always)]
    pub fn as_bytes(&self) -> &[u8]
        ensures bytes { result.now ≡ self.now }
        ensures text { IsText self.now }
    {
        self.text.as_bytes()
    }

    /// Takes its text, and leaves the empty one. It takes no memory.
    #[inline(always)]
    pub fn take_text(&mut self, alloc: Global) -> Txt
        ensures taken { result ≡ self.old }
        ensures empty { self.new ≡ [] }
    {
        mem::replace(&mut self.text, Txt::empty(alloc))
    }
}

impl Clone for ErrorText {
    ghost is_clone = { λ error copy. copy ≡ error };

    ghost is_infallible = { λ error. length error ≤ INLINE_BYTES };

    fn clone(&self) -> Result<Self, AllocError> {
        Ok(ErrorText::of(self.text.clone()?))
    }
}

impl PartialEq for ErrorText {
    ghost eq = { pointwise nat_eq };

    ghost laws = { partial_equiv_from_equiv nat_list_eq_equiv };

    fn eq(&self, other: &Self) -> bool {
        self.text == other.text
    }
}

impl Eq for ErrorText {
    ghost laws = { nat_list_eq_equiv };
}
