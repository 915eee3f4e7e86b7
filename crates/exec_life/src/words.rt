//! The words of a state: of its blocks, of their places, and of the scope.
//!
//! # The life of a block
//!
//!     free --claim--> open --release--> free at the next generation, or retired after the last
//!
//! # The life of a node
//!
//!     idle --begin--> busy 0 --finish--> done --release--> idle again, at the next generation
//!     busy 0 --await--> busy k --report--> busy k-1 .. busy 0
//!     busy 0 --rest--> ready (loop or pool) or parked --take--> busy 0
//!                      parked --rouse--> ready (loop)
//!
//! # The life of a stop callback
//!
//!     never --arm--> armed --run--> running --end_run--> ran
//!                    armed --withdraw--> removed
//!                                   running --withdraw_own--> removed
//!
//! Each arrow is a step of a hand. A place's word is meant at its block's present generation:
//! `release` takes the words of all places back to the first.
ghost use Rattle.std.specs.Prelude.{◌≡◌, ◌<◌, ◌^◌, ◌*◌, IfOk, length};
ghost use Rattle.exec_life.specs.WordLists.{HasPlace, HasSource, block_word, control_word, callback_word, source_word, bits_in, AreFirstWords};
ghost use Rattle.exec_life.specs.WordWrites.{SetsBlock, SetsControl, SetsCallback, SetsSource, ClearsWords};

use crate::grid::Grid;
use life_rules::{
    Bits, BlockState, BlockWord, CallbackPhase, ControlWord, Place, ScopeWord, SourceAt,
};
use std::alloc::{AllocError, Global};
use std::marker::Model;

const FIRST_WORD: BlockWord = BlockWord {
    generation: 0,
    state: BlockState::Free,
};

const CLEAR: Bits = Bits {
    requested: false,
    failed: false,
    scanned: false,
};

const UNUSED: ScopeWord = ScopeWord {
    used: false,
    closed: false,
    joining: false,
    joined: false,
    count: 0,
};

/// The words of a state, as they read.
#[derive(Drop)]
pub struct Words {
    nodes: u32,
    blocks: Vec<BlockWord>,
    control: Grid<ControlWord>,
    callback: Grid<CallbackPhase>,
    source: Grid<Bits>,
    scope_source: Bits,
    scope: ScopeWord,
}

impl Model for Words {
    ghost use Rattle.exec_life.specs.WordLists.{WordLists, AreWords};

    ghost Value = { WordLists };

    ghost use Rattle.exec_life.specs.WordInside.{words_of};

    ghost view = { words_of };

    ghost invariant = { λ w. AreWords (words_of w) };
}

// What users of a state read.
impl Words {
    /// How often the block was given back, and what it is now.
    pub fn block(&self, block: u32) -> BlockWord
        requires { block < length self.now.blocks }
        ensures { result ≡ block_word self.now block }
    {
        self.blocks[block as usize]
    }

    /// How far the node has come.
    pub fn control(&self, place: Place) -> ControlWord
        requires { HasPlace self.now place }
        ensures { result ≡ control_word self.now place.block place.node }
    {
        self.control.get(place)
    }

    /// What has become of the node's stop callback.
    pub fn callback(&self, place: Place) -> CallbackPhase
        requires { HasPlace self.now place }
        ensures { result ≡ callback_word self.now place.block place.node }
    {
        self.callback.get(place)
    }

    /// What is known of a stop request on this source.
    pub fn source(&self, source: SourceAt) -> Bits
        requires { HasSource self.now source }
        ensures { result ≡ bits_in self.now source }
    {
        match source {
            SourceAt::Scope => self.scope_source,
            SourceAt::At(place) => self.source.get(place),
        }
    }

    /// The word of the counting scope.
    pub fn scope(&self) -> ScopeWord
        ensures { result ≡ self.now.scope }
    {
        self.scope
    }
}

// What the steps write.
impl Words {
    /// The words with which all begins.
    pub(crate) fn new(alloc: Global, blocks: u32, nodes: u32) -> Result<Words, AllocError>
        requires { blocks * nodes < 2 ^ 32 }
        ensures { IfOk result (AreFirstWords blocks nodes) }
    {
        Ok(Words {
            nodes,
            blocks: vec![in alloc; FIRST_WORD; blocks as usize]?,
            control: Grid::new(alloc, blocks, nodes, ControlWord::Idle)?,
            callback: Grid::new(alloc, blocks, nodes, CallbackPhase::Never)?,
            source: Grid::new(alloc, blocks, nodes, CLEAR)?,
            scope_source: CLEAR,
            scope: UNUSED,
        })
    }

    /// The number of blocks.
    pub(crate) fn blocks(&self) -> u32
        requires { length self.now.blocks < 2 ^ 32 }
        ensures { result ≡ length self.now.blocks }
    {
        self.blocks.len() as u32
    }

    /// Writes the word of the block.
    pub(crate) fn set_block(&mut self, block: u32, word: BlockWord)
        requires { block < length self.old.blocks }
        ensures { SetsBlock self.old self.new block word }
    {
        self.blocks[block as usize] = word;
    }

    /// Writes the control word of the place.
    pub(crate) fn set_control(&mut self, place: Place, word: ControlWord)
        requires { HasPlace self.old place }
        ensures { SetsControl self.old self.new place.block place.node word }
    {
        self.control.set(place, word);
    }

    /// Writes the callback word of the place.
    pub(crate) fn set_callback(&mut self, place: Place, phase: CallbackPhase)
        requires { HasPlace self.old place }
        ensures { SetsCallback self.old self.new place.block place.node phase }
    {
        self.callback.set(place, phase);
    }

    /// Writes the word of the source.
    pub(crate) fn set_source(&mut self, source: SourceAt, bits: Bits)
        requires { HasSource self.old source }
        ensures { SetsSource self.old self.new source bits }
    {
        match source {
            SourceAt::Scope => self.scope_source = bits,
            SourceAt::At(place) => self.source.set(place, bits),
        }
    }

    /// Writes the word of the scope.
    pub(crate) fn set_scope(&mut self, word: ScopeWord)
        ensures { self.new ≡ record self.old { scope = word } }
    {
        self.scope = word;
    }

    /// Takes the words of all places of the block back to the first.
    pub(crate) fn clear_places(&mut self, block: u32)
        requires { block < length self.old.blocks }
        ensures { ClearsWords self.old self.new block }
    {
        self.control.clear_row(block, ControlWord::Idle);
        self.callback.clear_row(block, CallbackPhase::Never);
        self.source.clear_row(block, CLEAR);
    }
}
