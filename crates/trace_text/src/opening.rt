//! What a trace or a schedule opens with.
ghost use Rattle.std.specs.Prelude.{◌≡◌, length};
ghost use Rattle.trace_text.specs.Setups.{IsWithin, IsSetup};

use node_tree::{ScopeKind, Tree};
use std::alloc::AllocError;
use std::marker::Model;

/// What a trace or a schedule opens with: the tree of each operation, how many blocks and hands
/// there are, and the scope's kind and its greatest number of associations.
#[derive(Debug, Drop)]
pub struct Opening {
    tree: Tree,
    blocks: u32,
    hands: u32,
    kind: ScopeKind,
    most: u32,
}

impl Model for Opening {
    ghost use Rattle.trace_text.specs.Setups.{Setup, IsSetup};

    ghost Value = { Setup };

    ghost use Rattle.trace_text.specs.OpeningInside.{setup_of};

    ghost view = { setup_of };

    ghost invariant = { λ o. IsSetup (setup_of o) };
}

impl Clone for Opening {
    ghost is_clone = { λ opening copy. copy ≡ opening };

    fn clone(&self) -> Result<Opening, AllocError> {
        Ok(Opening {
            tree: self.tree.clone()?,
            blocks: self.blocks,
            hands: self.hands,
            kind: self.kind,
            most: self.most,
        })
    }
}

impl Opening {
    /// An opening of these numbers, which are within the limits.
    pub fn new(tree: Tree, blocks: u32, hands: u32, kind: ScopeKind, most: u32) -> Opening
        requires { IsWithin (length tree) blocks hands most }
        ensures { result ≡
            record { nodes = tree; blocks = blocks; hands = hands; kind = kind; most = most } }
    {
        let _nodes = tree.size();
        Opening {
            tree,
            blocks,
            hands,
            kind,
            most,
        }
    }

    /// The tree of each operation.
    pub fn tree(&self) -> &Tree
        ensures tree { result.now ≡ self.now.nodes }
        ensures setup { IsSetup self.now }
    {
        &self.tree
    }

    /// The number of blocks.
    pub fn blocks(&self) -> u32
        ensures { result ≡ self.now.blocks }
    {
        self.blocks
    }

    /// The number of hands.
    pub fn hands(&self) -> u32
        ensures { result ≡ self.now.hands }
    {
        self.hands
    }

    /// The scope's kind.
    pub fn kind(&self) -> ScopeKind
        ensures { result ≡ self.now.kind }
    {
        self.kind
    }

    /// The most associations that the scope takes.
    pub fn most(&self) -> u32
        ensures { result ≡ self.now.most }
    {
        self.most
    }
}
