//! The steps. Each is one atomic step on a word, sequentially consistent, and lists itself.
ghost use Rattle.std.specs.Prelude.{◌≡◌, ℕ, ◌+◌, ◌-◌, ◌%◌, ◌^◌, ◌<◌, ◌==◌, [], bit_or};
ghost use mathlib.Core.Option.{none};
ghost use prog.Atomic.{either};
ghost use Rattle.atomic_table.specs.Table.{step, Allows, Splits, Joins};
ghost use Rattle.listed_words.specs.Lists.{Listed, ListsApart};

use crate::hand::Hand;
use crate::kinds::{CompareExchange, FetchAdd, FetchOr, FetchSub, Load, Swap};
use crate::listing::Listing;
use crate::lists::Lists;
use crate::table::StepTable;
use atomic_table::{Join, Play, Split, TableRule};

impl<S: Drop, V: Lists, K, P: TableRule<S, V, K>> StepTable<S, V, K, P> {
    /// Reads the word, and leaves it.
    pub fn load<M: Play<S, V>>(&self, hand: &mut Hand<S, V>, word: usize) -> u64
        requires table { hand.old.table_id ≡ self.now.table_id }
        requires within { word < self.now.table_id.words }
        requires allows { Allows (P.holds self.now.key) self.now.table_id.slots
            hand.old.id hand.old.me word (λ n. n) (λ n m. Listed V.steps V.splits word n n
            (M.then (step self.now.table_id.slots word 0 0 none) hand.old.me n)
            hand.old.me m) }
        ensures { (hand.new.table_id ≡ hand.old.table_id) × (hand.new.id ≡ hand.old.id)
            × Listed V.steps V.splits word result result
            (M.then (step self.now.table_id.slots word 0 0 none) hand.old.me result)
            hand.old.me hand.new.me }
    {
        self.words.load::<Listing<Load, M>>(&mut hand.seat, word)
    }

    /// Writes the word, and lists what it found there: so it is a swap, which costs the same on
    /// this processor.
    pub fn store<M: Play<S, V>>(&self, hand: &mut Hand<S, V>, word: usize, new: u64)
        requires table { hand.old.table_id ≡ self.now.table_id }
        requires within { word < self.now.table_id.words }
        requires allows { Allows (P.holds self.now.key) self.now.table_id.slots
            hand.old.id hand.old.me word (λ _. new) (λ n m. Listed V.steps V.splits word n new
            (M.then (step self.now.table_id.slots word new 0 none) hand.old.me n)
            hand.old.me m) }
        ensures { (hand.new.table_id ≡ hand.old.table_id) × (hand.new.id ≡ hand.old.id)
            × ((read : ℕ) × Listed V.steps V.splits word read new
            (M.then (step self.now.table_id.slots word new 0 none) hand.old.me read)
            hand.old.me hand.new.me) }
    {
        self.words
            .swap::<Listing<Swap, M>>(&mut hand.seat, word, new);
    }

    /// Reads the word, and sets these bits in it.
    pub fn fetch_or<M: Play<S, V>>(&self, hand: &mut Hand<S, V>, word: usize, bits: u64) -> u64
        requires table { hand.old.table_id ≡ self.now.table_id }
        requires within { word < self.now.table_id.words }
        requires allows { Allows (P.holds self.now.key) self.now.table_id.slots
            hand.old.id hand.old.me word (λ n. bit_or n bits)
            (λ n m. Listed V.steps V.splits word n (bit_or n bits)
            (M.then (step self.now.table_id.slots word bits 0 none) hand.old.me n)
            hand.old.me m) }
        ensures { (hand.new.table_id ≡ hand.old.table_id) × (hand.new.id ≡ hand.old.id)
            × Listed V.steps V.splits word result (bit_or result bits)
            (M.then (step self.now.table_id.slots word bits 0 none) hand.old.me result)
            hand.old.me hand.new.me }
    {
        self.words
            .fetch_or::<Listing<FetchOr, M>>(&mut hand.seat, word, bits)
    }

    /// Reads the word, and adds to it, modulo 2^64.
    pub fn fetch_add<M: Play<S, V>>(&self, hand: &mut Hand<S, V>, word: usize, more: u64) -> u64
        requires table { hand.old.table_id ≡ self.now.table_id }
        requires within { word < self.now.table_id.words }
        requires allows { Allows (P.holds self.now.key) self.now.table_id.slots
            hand.old.id hand.old.me word (λ n. (n + more) % 2 ^ 64)
            (λ n m. Listed V.steps V.splits word n ((n + more) % 2 ^ 64)
            (M.then (step self.now.table_id.slots word more 0 none) hand.old.me n)
            hand.old.me m) }
        ensures { (hand.new.table_id ≡ hand.old.table_id) × (hand.new.id ≡ hand.old.id)
            × Listed V.steps V.splits word result ((result + more) % 2 ^ 64)
            (M.then (step self.now.table_id.slots word more 0 none) hand.old.me result)
            hand.old.me hand.new.me }
    {
        self.words
            .fetch_add::<Listing<FetchAdd, M>>(&mut hand.seat, word, more)
    }

    /// Reads the word, and subtracts from it, modulo 2^64.
    pub fn fetch_sub<M: Play<S, V>>(&self, hand: &mut Hand<S, V>, word: usize, less: u64) -> u64
        requires table { hand.old.table_id ≡ self.now.table_id }
        requires within { word < self.now.table_id.words }
        requires allows { Allows (P.holds self.now.key) self.now.table_id.slots
            hand.old.id hand.old.me word (λ n. (n + (2 ^ 64 - less)) % 2 ^ 64)
            (λ n m. Listed V.steps V.splits word n ((n + (2 ^ 64 - less)) % 2 ^ 64)
            (M.then (step self.now.table_id.slots word less 0 none) hand.old.me n)
            hand.old.me m) }
        ensures { (hand.new.table_id ≡ hand.old.table_id) × (hand.new.id ≡ hand.old.id)
            × Listed V.steps V.splits word result ((result + (2 ^ 64 - less)) % 2 ^ 64)
            (M.then (step self.now.table_id.slots word less 0 none) hand.old.me result)
            hand.old.me hand.new.me }
    {
        self.words
            .fetch_sub::<Listing<FetchSub, M>>(&mut hand.seat, word, less)
    }

    /// Reads the word, and writes `new` where it was `old`. The answer is the word as it was.
    pub fn compare_exchange<M: Play<S, V>>(
        &self,
        hand: &mut Hand<S, V>,
        word: usize,
        old: u64,
        new: u64,
    ) -> u64
        requires table { hand.old.table_id ≡ self.now.table_id }
        requires within { word < self.now.table_id.words }
        requires allows { Allows (P.holds self.now.key) self.now.table_id.slots
            hand.old.id hand.old.me word (λ n. either (n == old) new n)
            (λ n m. Listed V.steps V.splits word n (either (n == old) new n)
            (M.then (step self.now.table_id.slots word old new none) hand.old.me n)
            hand.old.me m) }
        ensures { (hand.new.table_id ≡ hand.old.table_id) × (hand.new.id ≡ hand.old.id)
            × Listed V.steps V.splits word result (either (result == old) new result)
            (M.then (step self.now.table_id.slots word old new none) hand.old.me result)
            hand.old.me hand.new.me }
    {
        self.words
            .compare_exchange::<Listing<CompareExchange, M>>(&mut hand.seat, word, old, new)
    }

    /// Splits a hand off. Its own list is empty, and the first hand's stays.
    pub fn split<M: Split<V>>(&self, hand: &mut Hand<S, V>) -> Hand<S, V>
        requires table { hand.old.table_id ≡ self.now.table_id }
        requires some { 0 < self.now.table_id.words }
        requires splits { Splits (P.holds self.now.key) hand.old.id hand.old.me.0
            (M.left hand.old.me.0) (M.right hand.old.me.0) }
        requires apart { ListsApart V.steps V.splits hand.old.me.0
            (M.left hand.old.me.0) (M.right hand.old.me.0) }
        ensures table { hand.new.table_id ≡ hand.old.table_id }
        ensures id { hand.new.id ≡ hand.old.id }
        ensures left { hand.new.me ≡ (M.left hand.old.me.0, hand.old.me.1) }
        ensures same_table { result.table_id ≡ hand.old.table_id }
        ensures right { result.me ≡ (M.right hand.old.me.0, []) }
    {
        Hand {
            seat: self.words.split::<M>(&mut hand.seat),
        }
    }

    /// Joins another hand, which holds no slot, to the first, whose list stays.
    pub fn join<M: Join<V>>(&self, hand: &mut Hand<S, V>, other: Hand<S, V>)
        requires table { hand.old.table_id ≡ self.now.table_id }
        requires same_table { other.table_id ≡ self.now.table_id }
        requires empty { other.me.1 ≡ [] }
        requires some { 0 < self.now.table_id.words }
        requires joins { Joins (P.holds self.now.key) hand.old.id hand.old.me.0
            other.id other.me.0 (M.both hand.old.me.0 other.me.0) M.spent }
        requires stay { V.steps (M.both hand.old.me.0 other.me.0) ≡ V.steps hand.old.me.0 }
        ensures table { hand.new.table_id ≡ hand.old.table_id }
        ensures id { hand.new.id ≡ hand.old.id }
        ensures both { hand.new.me ≡ (M.both hand.old.me.0 other.me.0, hand.old.me.1) }
    {
        self.words.join::<M>(&mut hand.seat, other.seat);
    }
}
