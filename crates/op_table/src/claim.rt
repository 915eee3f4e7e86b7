//! How a block is claimed for an operation.
ghost use Rattle.std.specs.Prelude.{◌≡◌, ◌<◌, true, IfSome};
ghost use Rattle.life_rules.specs.Words.{is_free};
ghost use Rattle.table_words.specs.Blocks.{block_read};
ghost use Rattle.table_steps.specs.Views.{IsHandOf, Stays, knows};
ghost use Rattle.table_steps.specs.Claims.{IsAnswer, IsAnswerFrom, OwesNoneIn, root_aim};

use crate::plays::{Claims, Looks, Subject};
use crate::table::{Hand, OpTable, SeatOf};
use life_rules::{BlockState, BlockWord};
use std::marker::Brand;
use table_rules::Cargo;
use table_steps::Block;
use table_words::{block_number, read_block, stamp};

impl<P: Cargo> OpTable<P> {
    /// Claims a free block: the hand then owes the start of its root, and has the root's empty
    /// home. None only where the word that was read wasn't free, or another hand moved it before
    /// this one.
    ///
    /// Step: one load of the block's word, and where it is free one exchange of it, free to open.
    /// The exchange loses where the word changed first.
    /// Needs: nothing but a hand of this table.
    /// Afterwards: the hand owes the root's start, with nothing above it and no lot.
    pub fn claim(&self, hand: &mut Hand<P>, block: u32) -> Option<Block>
        requires table { IsHandOf self.now hand.old }
        requires block { block < self.now.frame.layout.blocks }
        ensures stays { Stays self.now hand.old hand.new }
        ensures claimed { IsAnswer self.now block result hand.old hand.new }
    {
        let _layout = self.frame.layout;
        let claimed = self.claim_at(&mut hand.seat, block)?;
        hand.owed.insert(self.root(claimed));
        Some(claimed)
    }

    // Claims the block where its word says that it is free.
    fn claim_at(&self, seat: &mut SeatOf<P>, block: u32) -> Option<Block>
        requires table { IsHandOf self.now seat.old }
        requires block { block < self.now.frame.layout.blocks }
        ensures stays { Stays self.now seat.old seat.new }
        ensures claimed { IsAnswer self.now block result seat.old seat.new }
        ensures owed { IfSome result (OwesNoneIn self.now (knows seat.old)) }
    {
        let index = self.frame.layout.block(block);
        let found = self.table.load::<Looks>(seat, index);
        match read_block(found).state {
            BlockState::Free => self.claim_from::<Brand>(seat, block, found),
            BlockState::Open | BlockState::Retired => None,
        }
    }

    // Claims the block where its word is still the one that was read as free.
    fn claim_from<K: Subject>(&self, seat: &mut SeatOf<P>, block: u32, found: u64) -> Option<Block>
        requires table { IsHandOf self.now seat.old }
        requires block { block < self.now.frame.layout.blocks }
        requires free { is_free (block_read found).state ≡ true }
        requires subject { K.aim ≡ root_aim self.now block (block_read found).generation }
        ensures stays { Stays self.now seat.old seat.new }
        ensures claimed { IsAnswerFrom self.now block found result seat.old seat.new }
        ensures owed { IfSome result (OwesNoneIn self.now (knows seat.old)) }
    {
        let generation = stamp(found);
        let open = block_number(BlockWord {
            generation,
            state: BlockState::Open,
        });
        let index = self.frame.layout.block(block);
        let was = self
            .table
            .compare_exchange::<Claims<K>>(seat, index, found, open);
        if was == found {
            Some(Block {
                index: block,
                generation,
            })
        } else {
            None
        }
    }
}
