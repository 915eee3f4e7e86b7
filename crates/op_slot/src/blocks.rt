//! How a block is found, and given back.
ghost use Rattle.std.specs.Prelude.{◌≡◌, ◌<◌, ◌≤◌};
ghost use Rattle.table_steps.specs.Views.{IsHandOf, Stays};
ghost use Rattle.table_steps.specs.Releases.{CanReleaseBlock, StayEmpty};
ghost use Rattle.table_steps.specs.Steps.{Released, LeftAllEmpty};
ghost use Rattle.op_slot.specs.Searches.{block_round, IsSearched, IsSearchedFrom};

use op_table::{Block, Cargo, Hand, OpTable};

/// Claims a free block, the first that it finds from block 0 on: the hand then owes the start of
/// its root, and has the root's empty home. None only where each block, at its own step of this
/// call, wasn't free, or was moved by another hand between this hand's load and its exchange.
///
/// Step: for each block one load of its word, and where it is free one exchange, free to open.
/// Afterwards: the hand has noted no start of that root.
pub fn claim_any<P: Cargo>(table: &OpTable<P>, hand: &mut Hand<P>) -> Option<Block>
    requires table { IsHandOf table.now hand.old }
    ensures stays { Stays table.now hand.old hand.new }
    ensures claimed { IsSearched table.now result hand.old hand.new }
{
    claim_from(table, hand, 0)
}

// The block to which so many steps round from this one lead.
fn block_round(blocks: u32, from: u32, step: u32) -> u32
    requires from { from ≤ blocks }
    requires step { step < blocks }
    ensures round { result ≡ block_round blocks from step }
    ensures within { result < blocks }
{
    let before_end = blocks - from;
    if step < before_end {
        from + step
    } else {
        step - before_end
    }
}

/// Claims a free block, the first that it finds round from this block on: hands that begin at
/// blocks of their own don't meet at one. None only where each block, at its own step of this call,
/// wasn't free, or was moved by another hand between this hand's load and its exchange.
///
/// Step: for each block one load of its word, and where it is free one exchange, free to open.
/// Needs: a block of the table, or their number, after which block 0 is the next.
/// Afterwards: the hand owes the root's start, of which it has noted none, with nothing above it
/// and no lot.
pub fn claim_from<P: Cargo>(table: &OpTable<P>, hand: &mut Hand<P>, from: u32) -> Option<Block>
    requires table { IsHandOf table.now hand.old }
    requires from { from ≤ table.now.frame.layout.blocks }
    ensures stays { Stays table.now hand.old hand.new }
    ensures claimed { IsSearchedFrom table.now from result hand.old hand.new }
{
    let blocks = table.blocks();
    for step in 0..blocks {
        let block = block_round(blocks, from, step);
        if let Some(claimed) = table.claim(hand, block) {
            return Some(claimed);
        }
    }
    None
}

/// Gives the block back. It is free at the next generation then, or retired where the generation
/// was 4,294,967,295.
///
/// Step: one swap of the block's word, open to free or to retired.
/// Needs: the hand has the finished root, and its home, which is empty.
/// Afterwards: the hand has the root no more, and has given its home back. The word that it left
/// says that the block is free, or retired. In the table that the step left all homes of the block
/// are empty, and they stay so as long as it isn't open.
pub fn release<P: Cargo>(table: &OpTable<P>, hand: &mut Hand<P>, block: Block)
    requires table { IsHandOf table.now hand.old }
    requires block { block.index < table.now.frame.layout.blocks }
    requires needs { CanReleaseBlock table.now.frame block.index block.generation hand.old.me }
    ensures stays { Stays table.now hand.old hand.new }
    ensures released { Released table.now block.index block.generation hand.old hand.new }
    ensures empty { LeftAllEmpty table.now block.index block.generation hand.new P.Cargo }
    ensures stay { StayEmpty P.Cargo table.now.frame block.index }
{
    table.release_step(hand, block);
}
