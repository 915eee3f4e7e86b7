//! The set.
ghost use Rattle.std.specs.Prelude.{◌≡◌, ℕ, ◌<◌, ◌≤◌, ◌*◌, ◌||◌, ◌&&◌, not, true, false, length, IfOk, MatchOption};
ghost use Rattle.node_tree.specs.declared.node.TheConstants.{MOST_NODES};
ghost use Rattle.life_rules.specs.declared.limits.TheConstants.{MOST_BLOCKS};
ghost use Rattle.life_rules.specs.declared.event.Name.{Name};
ghost use Rattle.life_rules.specs.Views.{same};
ghost use Rattle.name_set.specs.Sets.{has, IsEmpty, IsLowest, IsPlaceOf, IsOfItsBlock, NoneBelow, IsFirst, IsWithin};

use crate::marks::{first_marked, is_marked, mark, unmark};
use life_rules::Name;
use std::alloc::{AllocError, Global};
use std::marker::Model;
use table_words::Layout;

/// Names of places of a table, those of one block at one generation.
#[derive(Drop)]
pub struct NameSet {
    layout: Layout,
    // A bit for each place.
    bits: Vec<u64>,
    // The generation of each block's names.
    generations: Vec<u32>,
    // All bits that are set are in the words from `low` on and below `high`: a set whose bounds
    // meet is empty, which is known without a look at the words.
    low: usize,
    high: usize,
}

impl Model for NameSet {
    ghost use Rattle.name_set.specs.Sets.{Marks, IsKept};

    ghost Value = { Marks };

    ghost view = { λ set. record {
      layout = set.layout;
      bits = set.bits.items;
      generations = set.generations.items;
    } };

    ghost invariant = { λ set. IsKept set.layout set.bits.items set.generations.items
        set.low set.high };
}

// The first place that is marked, where none is outside of these words.
fn first_within(bits: &[u64], low: usize, high: usize) -> Option<usize>
    requires size { length bits.now ≤ 65536 }
    requires within { IsWithin bits.now low high }
    ensures { MatchOption result (NoneBelow bits.now (64 * length bits.now)) (IsFirst bits.now) }
{
    let place = first_marked(&bits[low..high])?;
    Some(low * 64 + place)
}

// The bounds of these words and one more; of that alone, where there were none.
fn widened(low: usize, high: usize, word: usize) -> (usize, usize)
    requires word { word < 65536 }
    ensures has { (result.0 ≤ word) × (word < result.1) }
    ensures keeps { low < high → (result.0 ≤ low) × (high ≤ result.1) }
    ensures most { (n : ℕ) → high ≤ n → word < n → result.1 ≤ n }
{
    if low < high {
        (low.min(word), high.max(word + 1))
    } else {
        (word, word + 1)
    }
}

impl NameSet {
    /// An empty set for the names of these places. It fails only for want of memory.
    pub fn empty(alloc: Global, layout: Layout) -> Result<NameSet, AllocError>
        requires blocks { layout.blocks ≤ MOST_BLOCKS }
        requires nodes { (1 ≤ layout.nodes) × (layout.nodes ≤ MOST_NODES) }
        ensures layout { IfOk result (λ set. set.layout ≡ layout) }
        ensures empty { IfOk result IsEmpty }
    {
        let words = layout.places() / 64 + 1;
        let bits = vec![in alloc; 0u64; words]?;
        let generations = vec![in alloc; 0u32; layout.blocks as usize]?;
        Ok(NameSet {
            layout,
            bits,
            generations,
            low: 0,
            high: 0,
        })
    }

    /// Adds the name. The names that the set has of its block are of its generation.
    pub fn insert(&mut self, name: Name)
        requires place { IsPlaceOf self.old.layout name }
        requires generation { IsOfItsBlock self.old name }
        ensures layout { self.new.layout ≡ self.old.layout }
        ensures has { (x : Name) → has self.new x ≡ (same name x || has self.old x) }
    {
        let place = self.layout.place(name.block, name.node);
        mark(self.bits.as_mut_slice(), place);
        self.generations[name.block as usize] = name.generation;
        let (low, high) = widened(self.low, self.high, place / 64);
        self.low = low;
        self.high = high;
    }

    /// Takes the name out, which the set has.
    pub fn remove(&mut self, name: Name)
        requires has { has self.old name ≡ true }
        ensures layout { self.new.layout ≡ self.old.layout }
        ensures has { (x : Name) → has self.new x ≡ (not (same name x) && has self.old x) }
    {
        let place = self.layout.place(name.block, name.node);
        unmark(self.bits.as_mut_slice(), place);
        self.low = match first_within(self.bits.as_slice(), self.low, self.high) {
            Some(first) => first / 64,
            None => self.high,
        };
    }

    /// Whether the set has the name.
    pub fn contains(&self, name: Name) -> bool
        requires place { IsPlaceOf self.now.layout name }
        ensures { result ≡ has self.now name }
    {
        let place = self.layout.place(name.block, name.node);
        is_marked(self.bits.as_slice(), place)
            && self.generations[name.block as usize] == name.generation
    }

    /// The name of the lowest place that the set has. None exactly where it is empty. An empty set
    /// knows that without reading a word.
    pub fn first(&self) -> Option<Name>
        ensures { MatchOption result (IsEmpty self.now) (IsLowest self.now) }
    {
        let place = first_within(self.bits.as_slice(), self.low, self.high)?;
        if place >= self.layout.places() {
            return None;
        }
        let nodes = self.layout.nodes as usize;
        let block = place / nodes;
        Some(Name {
            block: block as u32,
            generation: self.generations[block],
            node: (place % nodes) as u32,
        })
    }
}
