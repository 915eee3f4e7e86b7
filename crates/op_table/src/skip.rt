//! How a scan of the scope's source passes a block that is free.
ghost use Rattle.std.specs.Prelude.{◌≡◌, ◌<◌};
ghost use Rattle.life_rules.specs.declared.event.Name.{Name};
ghost use Rattle.table_steps.specs.Views.{IsHandOf, aim_at, Stays, knows};
ghost use Rattle.table_steps.specs.Skips.{says_free, skips_at, CanSkip, IsSkipped};

use crate::plays::Subject;
use crate::table::{Hand, OpTable, SeatOf};
use atomic_table::Play;
use life_rules::{BlockState, Name};
use std::marker::{Brand, PhantomData};
use table_rules::{Cargo, View};
use table_words::read_block;

/// The load by which a free block is skipped.
pub struct Skips<K> {
    subject: PhantomData<K>,
}

impl<P, E, K: Subject> Play<Option<P>, View<P, E>> for Skips<K> {
    ghost then = { λ step m found m'. m' ≡ skips_at K.aim.tree K.aim.name.block step.word found m };
}

// The word says that the block is free.
fn says_free(word: u64) -> bool
    ensures { result ≡ says_free word }
{
    matches!(read_block(word).state, BlockState::Free)
}

// The first node of the block.
fn first_of(block: u32) -> Name
    ensures { result ≡ record { block = block; generation = 0; node = 0 } }
{
    Name {
        block,
        generation: 0,
        node: 0,
    }
}

impl<P: Cargo> OpTable<P> {
    /// Passes all places of the block, where it is free: no callback of a free block is registered.
    /// False exactly where the word that was read said something else: then nothing changed.
    ///
    /// Step: one load of the block's word.
    /// Needs: the hand scans the scope's source, and the next place of that scan lies in this
    /// block. Afterwards: the scan goes on in the next block.
    pub fn skip_step(&self, hand: &mut Hand<P>, block: u32) -> bool
        requires table { IsHandOf self.now hand.old }
        requires block { block < self.now.frame.layout.blocks }
        requires needs { CanSkip self.now.frame.tree (knows hand.old) block }
        ensures stays { Stays self.now hand.old hand.new }
        ensures skipped { IsSkipped self.now block result hand.old hand.new }
    {
        let first = first_of(block);
        self.skip_at::<Brand>(&mut hand.seat, first)
    }

    fn skip_at<K: Subject>(&self, seat: &mut SeatOf<P>, first: Name) -> bool
        requires table { IsHandOf self.now seat.old }
        requires block { first.block < self.now.frame.layout.blocks }
        requires needs { CanSkip self.now.frame.tree (knows seat.old) first.block }
        requires subject { K.aim ≡ aim_at self.now first }
        ensures stays { Stays self.now seat.old seat.new }
        ensures skipped { IsSkipped self.now first.block result seat.old seat.new }
    {
        let index = self.frame.layout.block(first.block);
        let word = self.table.load::<Skips<K>>(seat, index);
        says_free(word)
    }
}
