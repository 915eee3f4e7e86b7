//! What a step here tells: its entry in the list, and what the caller's Play says.
ghost use Rattle.listed_words.specs.Lists.{Listed};

use crate::kinds::Kind;
use crate::lists::Lists;
use atomic_table::Play;
use std::marker::PhantomData;

/// The Play of a step of kind T for a caller whose own Play is Q.
pub(crate) struct Listing<T, Q> {
    marker: PhantomData<(T, Q)>,
}

impl<S, V: Lists, T: Kind, Q: Play<S, V>> Play<S, V> for Listing<T, Q> {
    ghost then = { λ step m n m'.
        Listed V.steps V.splits step.word n (T.leaves step.first step.second n)
        (Q.then step m n) m m' };
}
