//! How a block is given back.
ghost use Rattle.std.specs.Prelude.{◌≡◌, ◌<◌, [], ◌∷◌};
ghost use Rattle.table_steps.specs.Views.{IsHandOf, Stays};
ghost use Rattle.table_steps.specs.Claims.{root_aim};
ghost use Rattle.table_steps.specs.Releases.{CanReleaseBlock, StayEmpty, word_after};
ghost use Rattle.table_steps.specs.Steps.{Released, LeftAllEmpty};

use crate::plays::{Releases, Site, Subject};
use crate::table::{Hand, OpTable, SeatOf};
use life_rules::{BlockState, BlockWord};
use std::marker::Brand;
use table_rules::Cargo;
use table_steps::Block;
use table_words::block_number;

// The word of a block of this generation that is given back: free at the next, or retired after the
// last.
fn word_after(generation: u32) -> BlockWord
    ensures { result ≡ word_after generation }
{
    if generation == u32::MAX {
        BlockWord {
            generation,
            state: BlockState::Retired,
        }
    } else {
        BlockWord {
            generation: generation + 1,
            state: BlockState::Free,
        }
    }
}

impl<P: Cargo> OpTable<P> {
    /// Gives the block back: nothing touches it any more, and all its homes are empty.
    ///
    /// Step: one swap of the block's word, open to free at the next generation, or to retired
    /// after the last.
    /// Needs: the hand has the finished root, and its home, which is empty.
    /// Afterwards: the hand has the root no more, and has given its home back. The word that it
    /// wrote says that the block is free at the next generation, or retired after the last. In the
    /// table that the step left all homes of the block are empty, and they stay so as long as it
    /// isn't open.
    pub fn release_step(&self, hand: &mut Hand<P>, block: Block)
        requires table { IsHandOf self.now hand.old }
        requires block { block.index < self.now.frame.layout.blocks }
        requires needs { CanReleaseBlock self.now.frame block.index block.generation hand.old.me }
        ensures stays { Stays self.now hand.old hand.new }
        ensures released { Released self.now block.index block.generation hand.old hand.new }
        ensures empty { LeftAllEmpty self.now block.index block.generation hand.new P.Cargo }
        ensures stay { StayEmpty P.Cargo self.now.frame block.index }
    {
        self.release_at::<Brand, Brand>(&mut hand.seat, block);
    }

    fn release_at<K: Subject, J: Site<P::Over>>(&self, seat: &mut SeatOf<P>, block: Block)
        requires table { IsHandOf self.now seat.old }
        requires block { block.index < self.now.frame.layout.blocks }
        requires needs { CanReleaseBlock self.now.frame block.index block.generation seat.old.me }
        requires subject { K.aim ≡ root_aim self.now block.index block.generation }
        requires frames { J.frames ≡ self.now.frame ∷ [] }
        requires site { J.hand ≡ seat.old.id }
        ensures stays { Stays self.now seat.old seat.new }
        ensures released { Released self.now block.index block.generation seat.old seat.new }
        ensures empty { LeftAllEmpty self.now block.index block.generation seat.new P.Cargo }
        ensures stay { StayEmpty P.Cargo self.now.frame block.index }
    {
        let free = block_number(word_after(block.generation));
        let index = self.frame.layout.block(block.index);
        self.table.store::<Releases<K, J>>(seat, index, free);
    }
}
