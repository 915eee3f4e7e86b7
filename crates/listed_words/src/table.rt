//! The table whose steps list themselves.
ghost use Rattle.std.specs.Prelude.{◌≡◌, [], length, replicate, None, IfOk};
ghost use Rattle.std.specs.Mem.Slots.{slots_items, slots_len, IsFull};
ghost use Rattle.atomic_table.specs.Table.{opening, Final, Seen};

use crate::hand::Hand;
use crate::lists::Lists;
use crate::words::Words;
use atomic_table::{Closed, TableRule};
use std::alloc::{AllocError, Global};
use std::marker::Model;

/// A table of words and slots under the rule P. Threads share it, and step on it by hands.
#[derive(Drop)]
pub struct StepTable<S: Drop, V: Lists, K, P: TableRule<S, V, K>> {
    pub(crate) words: Words<S, V, K, P>,
}

impl<S: Drop, V: Lists, K, P: TableRule<S, V, K>> Model for StepTable<S, V, K, P> {
    ghost use Rattle.listed_words.specs.Boards.{Board};

    ghost Value = { Board K };

    ghost view = { λ t. t.words };
}

impl<T: Drop, V: Lists, K, P: TableRule<Option<T>, V, K>> StepTable<Option<T>, V, K, P> {
    /// A table of these words, and so many slots, in each of which is `None`; and its first hand.
    ///
    /// Needs: the rule holds of it.
    pub fn vacant(
        alloc: Global,
        words: &[u64],
        slots: usize,
        about: &K,
    ) -> Result<(StepTable<Option<T>, V, K, P>, Hand<Option<T>, V>), AllocError>
        requires { P.holds about.now
            (opening words.now (replicate slots None) (P.first about.now)) }
        ensures words { IfOk result (λ t. t.0.table_id.words ≡ length words.now) }
        ensures slots { IfOk result (λ t. t.0.table_id.slots ≡ slots) }
        ensures key { IfOk result (λ t. t.0.key ≡ about.now) }
        ensures table { IfOk result (λ t. t.1.table_id ≡ t.0.table_id) }
        ensures id { IfOk result (λ t. t.1.id ≡ 0) }
        ensures me { IfOk result (λ t. t.1.me ≡ (P.first about.now, [])) }
    {
        let (words, seat) = Words::vacant(alloc, words, slots, about)?;
        Ok((StepTable { words }, Hand { seat }))
    }
}

impl<S: Drop, V: Lists, K, P: TableRule<S, V, K>> StepTable<S, V, K, P> {
    /// Closes the table with its last hand, and tells its words, and what lay in its slots.
    pub fn close_with(self, hand: Hand<S, V>) -> Closed<S, Global>
        requires { hand.table_id ≡ self.table_id }
        ensures words { slots_len result.words ≡ self.table_id.words }
        ensures slots { slots_len result.slots ≡ self.table_id.slots }
        ensures full { IsFull result.words × IsFull result.slots }
        ensures last { Final (Seen (P.holds self.key) hand.id hand.me.0)
            (slots_items result.words) (slots_items result.slots) }
    {
        self.words.close_with(hand.seat)
    }
}
