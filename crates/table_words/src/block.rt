//! The word of a block.
ghost use Rattle.std.specs.Prelude.{◌≡◌};
ghost use Rattle.table_words.specs.Blocks.{block_written, block_read};

use crate::halves::{code, pack, stamp};
use life_rules::{BlockState, BlockWord};

/// The number of a block's word.
pub fn block_number(word: BlockWord) -> u64
    ensures value { result ≡ block_written word }
    ensures reads { block_read result ≡ word }
{
    let code = match word.state {
        BlockState::Free => 0,
        BlockState::Open => 1,
        BlockState::Retired => 2,
    };
    pack(word.generation, code)
}

/// What a block's word says.
pub fn read_block(word: u64) -> BlockWord
    ensures { result ≡ block_read word }
{
    let state = match code(word) {
        0 => BlockState::Free,
        1 => BlockState::Open,
        _ => BlockState::Retired,
    };
    BlockWord {
        generation: stamp(word),
        state,
    }
}
