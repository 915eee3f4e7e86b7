//! The words and slots of a table, by single steps of a hand's seat alone.
//!
//! Each call here is one call of atomic_table. The table lies in a private field, so the bodies of
//! the other files, which list what they do, can make no load without a seat, and put no thread to
//! sleep.
ghost use Rattle.std.specs.Prelude.{◌≡◌, ℕ, ◌+◌, ◌-◌, ◌%◌, ◌^◌, ◌<◌, ◌==◌, [], ◌∷◌, length, replicate, None, IfOk, bit_or};
ghost use Rattle.std.specs.Mem.Slots.{slots_items, slots_len, IsFull};
ghost use mathlib.Core.Option.{none};
ghost use prog.Atomic.{either};
ghost use types.Logic.{sem};
ghost use denote.Follow.{follows};
ghost use Rattle.atomic_table.specs.Table.{step, Allows, Splits, Joins, rest, opening, Final, Seen};
ghost use Rattle.atomic_table.specs.Lent.{seat_with};
ghost use Rattle.atomic_table.specs.contracts.shared.Seat.{the_row};

use atomic_table::{Closed, Join, Play, Seat, Split, Table, TableRule};
use std::alloc::{AllocError, Global};
use std::marker::Model;

/// The words and slots of a table under the rule P.
#[derive(Drop)]
pub(crate) struct Words<S: Drop, V, K, P: TableRule<S, V, K>> {
    table: Table<S, V, K, P, Global>,
}

impl<S: Drop, V, K, P: TableRule<S, V, K>> Model for Words<S, V, K, P> {
    ghost use Rattle.listed_words.specs.Boards.{Board};

    ghost Value = { Board K };

    ghost view = { λ t. record { table_id = t.table.shared.table_id; key = t.table.shared.key } };
}

impl<T: Drop, V, K, P: TableRule<Option<T>, V, K>> Words<Option<T>, V, K, P> {
    pub(crate) fn vacant(
        alloc: Global,
        words: &[u64],
        slots: usize,
        about: &K,
    ) -> Result<(Words<Option<T>, V, K, P>, Seat<Option<T>, V>), AllocError>
        requires { P.holds about.now
            (opening words.now (replicate slots None) (P.first about.now)) }
        ensures words { IfOk result (λ t. t.0.table_id.words ≡ length words.now) }
        ensures slots { IfOk result (λ t. t.0.table_id.slots ≡ slots) }
        ensures key { IfOk result (λ t. t.0.key ≡ about.now) }
        ensures table { IfOk result (λ t. t.1.table_id ≡ t.0.table_id) }
        ensures id { IfOk result (λ t. t.1.id ≡ 0) }
        ensures me { IfOk result (λ t. t.1.me ≡ (P.first about.now, [])) }
    {
        let (table, seat) = Table::vacant(alloc, words, slots, about)?;
        Ok((Words { table }, seat))
    }
}

impl<S: Drop, V, K, P: TableRule<S, V, K>> Words<S, V, K, P> {
    pub(crate) fn load<M: Play<S, V>>(&self, seat: &mut Seat<S, V>, word: usize) -> u64
        requires { (seat.old.table_id ≡ self.now.table_id) × (word < self.now.table_id.words)
            × Allows (P.holds self.now.key) self.now.table_id.slots seat.old.id seat.old.me word
            (λ n. n) (M.then (step self.now.table_id.slots word 0 0 none) seat.old.me) }
        ensures { (seat.new.table_id ≡ seat.old.table_id) × (seat.new.id ≡ seat.old.id)
            × M.then (step self.now.table_id.slots word 0 0 none) seat.old.me result
            seat.new.me }
    {
        self.table.shared.load::<M>(seat, word)
    }

    pub(crate) fn swap<M: Play<S, V>>(&self, seat: &mut Seat<S, V>, word: usize, new: u64) -> u64
        requires { (seat.old.table_id ≡ self.now.table_id) × (word < self.now.table_id.words)
            × Allows (P.holds self.now.key) self.now.table_id.slots seat.old.id seat.old.me word
            (λ _. new) (M.then (step self.now.table_id.slots word new 0 none) seat.old.me) }
        ensures { (seat.new.table_id ≡ seat.old.table_id) × (seat.new.id ≡ seat.old.id)
            × M.then (step self.now.table_id.slots word new 0 none) seat.old.me result
            seat.new.me }
    {
        self.table.shared.swap::<M>(seat, word, new)
    }

    pub(crate) fn fetch_or<M: Play<S, V>>(
        &self,
        seat: &mut Seat<S, V>,
        word: usize,
        bits: u64,
    ) -> u64
        requires { (seat.old.table_id ≡ self.now.table_id) × (word < self.now.table_id.words)
            × Allows (P.holds self.now.key) self.now.table_id.slots seat.old.id seat.old.me word
            (λ n. bit_or n bits)
            (M.then (step self.now.table_id.slots word bits 0 none) seat.old.me) }
        ensures { (seat.new.table_id ≡ seat.old.table_id) × (seat.new.id ≡ seat.old.id)
            × M.then (step self.now.table_id.slots word bits 0 none) seat.old.me result
            seat.new.me }
    {
        self.table.shared.fetch_or::<M>(seat, word, bits)
    }

    pub(crate) fn fetch_add<M: Play<S, V>>(
        &self,
        seat: &mut Seat<S, V>,
        word: usize,
        more: u64,
    ) -> u64
        requires { (seat.old.table_id ≡ self.now.table_id) × (word < self.now.table_id.words)
            × Allows (P.holds self.now.key) self.now.table_id.slots seat.old.id seat.old.me word
            (λ n. (n + more) % 2 ^ 64)
            (M.then (step self.now.table_id.slots word more 0 none) seat.old.me) }
        ensures { (seat.new.table_id ≡ seat.old.table_id) × (seat.new.id ≡ seat.old.id)
            × M.then (step self.now.table_id.slots word more 0 none) seat.old.me result
            seat.new.me }
    {
        self.table.shared.fetch_add::<M>(seat, word, more)
    }

    pub(crate) fn fetch_sub<M: Play<S, V>>(
        &self,
        seat: &mut Seat<S, V>,
        word: usize,
        less: u64,
    ) -> u64
        requires { (seat.old.table_id ≡ self.now.table_id) × (word < self.now.table_id.words)
            × Allows (P.holds self.now.key) self.now.table_id.slots seat.old.id seat.old.me word
            (λ n. (n + (2 ^ 64 - less)) % 2 ^ 64)
            (M.then (step self.now.table_id.slots word less 0 none) seat.old.me) }
        ensures { (seat.new.table_id ≡ seat.old.table_id) × (seat.new.id ≡ seat.old.id)
            × M.then (step self.now.table_id.slots word less 0 none) seat.old.me result
            seat.new.me }
    {
        self.table.shared.fetch_sub::<M>(seat, word, less)
    }

    pub(crate) fn compare_exchange<M: Play<S, V>>(
        &self,
        seat: &mut Seat<S, V>,
        word: usize,
        old: u64,
        new: u64,
    ) -> u64
        requires { (seat.old.table_id ≡ self.now.table_id) × (word < self.now.table_id.words)
            × Allows (P.holds self.now.key) self.now.table_id.slots seat.old.id seat.old.me word
            (λ n. either (n == old) new n)
            (M.then (step self.now.table_id.slots word old new none) seat.old.me) }
        ensures { (seat.new.table_id ≡ seat.old.table_id) × (seat.new.id ≡ seat.old.id)
            × M.then (step self.now.table_id.slots word old new none) seat.old.me result
            seat.new.me }
    {
        self.table
            .shared
            .compare_exchange::<M>(seat, word, old, new)
    }

    pub(crate) fn split<M: Split<V>>(&self, seat: &mut Seat<S, V>) -> Seat<S, V>
        requires { (seat.old.table_id ≡ self.now.table_id) × (0 < self.now.table_id.words)
            × Splits (P.holds self.now.key) seat.old.id seat.old.me.0
            (M.left seat.old.me.0) (M.right seat.old.me.0) }
        ensures { (seat.new.table_id ≡ seat.old.table_id) × (seat.new.id ≡ seat.old.id)
            × (seat.new.me ≡ (M.left seat.old.me.0, seat.old.me.1))
            × (result.table_id ≡ seat.old.table_id)
            × (result.me ≡ (M.right seat.old.me.0, [])) }
    {
        self.table.shared.split_seat::<M>(seat)
    }

    pub(crate) fn join<M: Join<V>>(&self, seat: &mut Seat<S, V>, other: Seat<S, V>)
        requires { (seat.old.table_id ≡ self.now.table_id)
            × (other.table_id ≡ self.now.table_id) × (other.me.1 ≡ [])
            × (0 < self.now.table_id.words)
            × Joins (P.holds self.now.key) seat.old.id seat.old.me.0 other.id other.me.0
            (M.both seat.old.me.0 other.me.0) M.spent }
        ensures { (seat.new.table_id ≡ seat.old.table_id) × (seat.new.id ≡ seat.old.id)
            × (seat.new.me ≡ (M.both seat.old.me.0 other.me.0, seat.old.me.1)) }
    {
        self.table.shared.join_seat::<M>(seat, other);
    }

    pub(crate) fn close_with(self, seat: Seat<S, V>) -> Closed<S, Global>
        requires { seat.table_id ≡ self.table_id }
        ensures words { slots_len result.words ≡ self.table_id.words }
        ensures slots { slots_len result.slots ≡ self.table_id.slots }
        ensures full { IsFull result.words × IsFull result.slots }
        ensures last { Final (Seen (P.holds self.key) seat.id seat.me.0)
            (slots_items result.words) (slots_items result.slots) }
    {
        self.table.close_with(seat)
    }
}

/// The slot that the seat took last, as plain memory. It is no step.
#[inline(always)]
pub(crate) fn slot_mut<'a, S: Drop, V, K, P: TableRule<S, V, K>>(
    seat: &'a mut Seat<S, V>,
    words: &'a Words<S, V, K, P>,
    slot: usize,
) -> &'a mut S
    requires { (seat.old.table_id ≡ words.now.table_id)
        × ((old : S) × (seat.old.me.1 ≡ (slot, old) ∷ rest seat.old.me.1)) }
    ensures* writes_back { sem 𝓛 (follows (the_row S.row V.row) S.row
        seat.entry.ghost_name result.ghost_name (seat_with seat.old slot)) }
    ensures value { seat.old.me.1 ≡ (slot, result.now) ∷ rest seat.old.me.1 }
{
    seat.slot_mut(&words.table.shared, slot)
}
