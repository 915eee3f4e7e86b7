//! Loads of a node's control word, by hands that seek something to do.
ghost use Rattle.std.specs.Prelude.{◌≡◌, ◌<◌};
ghost use Rattle.life_rules.specs.Words.{is_parked};
ghost use Rattle.table_steps.specs.Views.{IsHandOf, Stays};
ghost use Rattle.table_steps.specs.Looks.{is_ready_in, IsRead, IsReadAs};

use crate::plays::Looks;
use crate::table::{Hand, OpTable, SeatOf};
use life_rules::{ControlWord, Name};
use node_tree::Context;
use table_rules::Cargo;
use table_words::{read_control, stamp};

// The word says that the node is ready there.
fn is_ready(control: ControlWord, on: Context) -> bool
    ensures { result ≡ is_ready_in on control }
{
    match on {
        Context::Loop => matches!(control, ControlWord::ReadyLoop),
        Context::Pool => matches!(control, ControlWord::ReadyPool),
    }
}

// The word says that the node is parked.
fn is_parked(control: ControlWord) -> bool
    ensures { result ≡ is_parked control }
{
    matches!(control, ControlWord::Parked)
}

impl<P: Cargo> OpTable<P> {
    // The node's control word.
    fn control_word(&self, seat: &mut SeatOf<P>, block: u32, node: u32) -> u64
        requires table { IsHandOf self.now seat.old }
        requires block { block < self.now.frame.layout.blocks }
        requires node { node < self.now.frame.layout.nodes }
        ensures stays { Stays self.now seat.old seat.new }
        ensures read { IsRead self.now block node result seat.old seat.new }
    {
        let index = self.frame.layout.control(block, node);
        self.table.load::<Looks>(seat, index)
    }

    /// The node's name at the generation of the word that was read, where that word says that the
    /// node is ready there. None exactly where it says something else.
    ///
    /// Step: one load of the node's control word.
    pub fn ready_at(&self, hand: &mut Hand<P>, block: u32, node: u32, on: Context) -> Option<Name>
        requires table { IsHandOf self.now hand.old }
        requires block { block < self.now.frame.layout.blocks }
        requires node { node < self.now.frame.layout.nodes }
        ensures stays { Stays self.now hand.old hand.new }
        ensures read { IsReadAs self.now block node (is_ready_in on) result hand.old hand.new }
    {
        let word = self.control_word(&mut hand.seat, block, node);
        if is_ready(read_control(word), on) {
            Some(Name {
                block,
                generation: stamp(word),
                node,
            })
        } else {
            None
        }
    }

    /// The node's name at the generation of the word that was read, where that word says that the
    /// node is parked. None exactly where it says something else.
    ///
    /// Step: one load of the node's control word.
    pub fn parked_at(&self, hand: &mut Hand<P>, block: u32, node: u32) -> Option<Name>
        requires table { IsHandOf self.now hand.old }
        requires block { block < self.now.frame.layout.blocks }
        requires node { node < self.now.frame.layout.nodes }
        ensures stays { Stays self.now hand.old hand.new }
        ensures read { IsReadAs self.now block node is_parked result hand.old hand.new }
    {
        let word = self.control_word(&mut hand.seat, block, node);
        if is_parked(read_control(word)) {
            Some(Name {
                block,
                generation: stamp(word),
                node,
            })
        } else {
            None
        }
    }
}
