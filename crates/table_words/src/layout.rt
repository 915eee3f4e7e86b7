//! Where the words and the homes of a table lie.
ghost use Rattle.std.specs.Prelude.{◌≡◌, ℕ, ◌≤◌, ◌<◌, ◌+◌, ◌*◌};
ghost use Rattle.life_rules.specs.declared.limits.TheConstants.{MOST_BLOCKS};
ghost use Rattle.node_tree.specs.declared.node.TheConstants.{MOST_NODES};
ghost use Rattle.table_words.specs.Layouts.{Spot, TheScope, TheScopeSource, OfBlock, OfControl, OfCallback, OfSource, IsSpot, index, place_number, words_in, places_in, block_words, word_of_block};

/// The blocks of a table, and the places of each: one for every node of the tree.
#[derive(Clone, Copy, Debug, PartialEq, Eq)]
pub struct Layout {
    /// 1 to 256.
    pub blocks: u32,
    /// 1 to 1,025.
    pub nodes: u32,
}

/// The index of the scope's word.
pub const SCOPE: usize = 0;

/// The index of the word of the scope's source.
pub const SCOPE_SOURCE: usize = 16;

/// How many words each block has before those of its places: 15 free ones and its own, so that
/// hands on two blocks share no cache line.
const HEAD: usize = 16;

const FIRST_BLOCK: usize = 32;

impl Layout {
    /// The number of places, which is that of homes.
    pub fn places(&self) -> usize
        requires blocks { self.now.blocks ≤ MOST_BLOCKS }
        requires nodes { self.now.nodes ≤ MOST_NODES }
        ensures { result ≡ places_in self.now }
    {
        self.blocks as usize * self.nodes as usize
    }

    /// The number of words.
    pub fn words(&self) -> usize
        requires blocks { self.now.blocks ≤ MOST_BLOCKS }
        requires nodes { self.now.nodes ≤ MOST_NODES }
        ensures { result ≡ words_in self.now }
    {
        FIRST_BLOCK + self.blocks as usize * self.block_words()
    }

    // How many words lie from one block's to the next one's.
    fn block_words(&self) -> usize
        requires nodes { self.now.nodes ≤ MOST_NODES }
        ensures value { result ≡ block_words self.now }
        ensures few { result ≤ 4 * MOST_NODES + 16 }
    {
        HEAD + 4 * self.nodes as usize
    }

    /// The number of a place, which is that of its home.
    pub fn place(&self, block: u32, node: u32) -> usize
        requires blocks { self.now.blocks ≤ MOST_BLOCKS }
        requires nodes { self.now.nodes ≤ MOST_NODES }
        requires block { block < self.now.blocks }
        requires node { node < self.now.nodes }
        ensures value { result ≡ place_number self.now block node }
        ensures within { result < places_in self.now }
    {
        block as usize * self.nodes as usize + node as usize
    }

    // The index of a place's first word. It is the place's number that is multiplied, as for homes.
    fn first_word(&self, block: u32, node: u32) -> usize
        requires blocks { self.now.blocks ≤ MOST_BLOCKS }
        requires nodes { self.now.nodes ≤ MOST_NODES }
        requires block { block < self.now.blocks }
        requires node { node < self.now.nodes }
        ensures value { result ≡ index self.now (OfControl block node) }
        ensures within { result + 3 < words_in self.now }
    {
        FIRST_BLOCK + HEAD * (block as usize + 1) + 4 * self.place(block, node)
    }

    /// The index of a block's word.
    pub fn block(&self, block: u32) -> usize
        requires blocks { self.now.blocks ≤ MOST_BLOCKS }
        requires nodes { self.now.nodes ≤ MOST_NODES }
        requires block { block < self.now.blocks }
        ensures value { result ≡ index self.now (OfBlock block) }
        ensures within { result < words_in self.now }
    {
        FIRST_BLOCK + (HEAD - 1) + HEAD * block as usize + 4 * self.nodes as usize * block as usize
    }

    /// The index of a place's control word.
    pub fn control(&self, block: u32, node: u32) -> usize
        requires blocks { self.now.blocks ≤ MOST_BLOCKS }
        requires nodes { self.now.nodes ≤ MOST_NODES }
        requires block { block < self.now.blocks }
        requires node { node < self.now.nodes }
        ensures value { result ≡ index self.now (OfControl block node) }
        ensures within { result < words_in self.now }
    {
        self.first_word(block, node)
    }

    /// The index of a place's callback word.
    pub fn callback(&self, block: u32, node: u32) -> usize
        requires blocks { self.now.blocks ≤ MOST_BLOCKS }
        requires nodes { self.now.nodes ≤ MOST_NODES }
        requires block { block < self.now.blocks }
        requires node { node < self.now.nodes }
        ensures value { result ≡ index self.now (OfCallback block node) }
        ensures within { result < words_in self.now }
    {
        self.first_word(block, node) + 1
    }

    /// The index of a place's source word.
    pub fn source(&self, block: u32, node: u32) -> usize
        requires blocks { self.now.blocks ≤ MOST_BLOCKS }
        requires nodes { self.now.nodes ≤ MOST_NODES }
        requires block { block < self.now.blocks }
        requires node { node < self.now.nodes }
        ensures value { result ≡ index self.now (OfSource block node) }
        ensures within { result < words_in self.now }
    {
        self.first_word(block, node) + 2
    }
}

/// Two words of one table lie at two indexes.
pub fn spots_are_apart()
    ensures within { (l : Layout) (x : Spot) → IsSpot l x → index l x < words_in l }
    ensures apart { (l : Layout) (x y : Spot)
        → IsSpot l x → IsSpot l y → index l x ≡ index l y → x ≡ y }
{}
