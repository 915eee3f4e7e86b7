//! What a hand reads of a node that it holds, and notes.
ghost use Rattle.std.specs.Prelude.{◌≡◌};
ghost use Rattle.life_rules.specs.Words.{is_idle};
ghost use Rattle.table_words.specs.Controls.{callback_read};
ghost use Rattle.table_steps.specs.Views.{IsHandOf, IsPlaceIn, aim_at, Stays, knows};
ghost use Rattle.table_steps.specs.Readings.{above_it, says_begun, says_phase, HoldsAbove, Holds, IsBegunAs, IsIdleStill, IsPhaseAs};

use crate::plays::{ReadsChild, ReadsPhase, Subject};
use crate::table::{Hand, OpTable, SeatOf};
use life_rules::{CallbackPhase, ControlWord, Name};
use std::marker::Brand;
use table_rules::Cargo;
use table_words::{read_callback, read_control, stamp};

fn is_idle(control: ControlWord) -> bool
    ensures { result ≡ is_idle control }
{
    matches!(control, ControlWord::Idle)
}

// The word says at this generation that the node has begun.
fn says_begun(generation: u32, word: u64) -> bool
    ensures { result ≡ says_begun generation word }
{
    stamp(word) == generation && !is_idle(read_control(word))
}

// The phase that the word says at this generation.
pub(crate) fn says_phase(generation: u32, word: u64) -> CallbackPhase
    ensures { result ≡ says_phase generation word }
{
    if stamp(word) == generation {
        phase_in(word)
    } else {
        CallbackPhase::Never
    }
}

// The phase that the word says, out of the way: most nodes never register a callback, and their
// words are of another generation.
#[inline(never)]
fn phase_in(word: u64) -> CallbackPhase
    ensures { result ≡ callback_read word }
{
    read_callback(word)
}

impl<P: Cargo> OpTable<P> {
    /// Whether the child has begun: false exactly where the word that was read is idle. Then the
    /// child stays so until this hand awaits it or gives its parent away, and the hand has noted
    /// it: it reads false each time until then.
    ///
    /// Step: one load of the child's control word.
    /// Needs: the hand holds the child's parent.
    pub fn has_begun(&self, hand: &mut Hand<P>, child: Name) -> bool
        requires table { IsHandOf self.now hand.old }
        requires place { IsPlaceIn self.now child }
        requires holds { HoldsAbove self.now.frame.tree (knows hand.old) child }
        ensures stays { Stays self.now hand.old hand.new }
        ensures begun { IsBegunAs self.now.frame child result hand.old.me hand.new.me }
        ensures idle { IsIdleStill self.now.frame child result hand.old.me }
    {
        self.read_child::<Brand, Brand>(&mut hand.seat, child)
    }

    fn read_child<K: Subject, J: Subject>(&self, seat: &mut SeatOf<P>, child: Name) -> bool
        requires table { IsHandOf self.now seat.old }
        requires place { IsPlaceIn self.now child }
        requires holds { HoldsAbove self.now.frame.tree (knows seat.old) child }
        requires parent { K.aim ≡ aim_at self.now (above_it self.now.frame.tree child) }
        requires child { J.aim ≡ aim_at self.now child }
        ensures stays { Stays self.now seat.old seat.new }
        ensures begun { IsBegunAs self.now.frame child result seat.old.me seat.new.me }
        ensures idle { IsIdleStill self.now.frame child result seat.old.me }
    {
        let index = self.frame.layout.control(child.block, child.node);
        let word = self.table.load::<ReadsChild<K, J>>(seat, index);
        says_begun(child.generation, word)
    }

    /// The phase of the node's callback that was read, which the hand has noted. Never, Ran and
    /// Removed stay so while the hand holds the node and doesn't arm it.
    ///
    /// Step: one load of the node's callback word.
    /// Needs: the hand holds the node.
    pub fn phase_of(&self, hand: &mut Hand<P>, name: Name) -> CallbackPhase
        requires table { IsHandOf self.now hand.old }
        requires place { IsPlaceIn self.now name }
        requires holds { Holds (knows hand.old) name }
        ensures stays { Stays self.now hand.old hand.new }
        ensures phase { IsPhaseAs self.now.frame name result hand.old.me hand.new.me }
    {
        self.read_phase::<Brand>(&mut hand.seat, name)
    }

    fn read_phase<K: Subject>(&self, seat: &mut SeatOf<P>, name: Name) -> CallbackPhase
        requires table { IsHandOf self.now seat.old }
        requires place { IsPlaceIn self.now name }
        requires holds { Holds (knows seat.old) name }
        requires subject { K.aim ≡ aim_at self.now name }
        ensures stays { Stays self.now seat.old seat.new }
        ensures phase { IsPhaseAs self.now.frame name result seat.old.me seat.new.me }
    {
        let index = self.frame.layout.callback(name.block, name.node);
        let word = self.table.load::<ReadsPhase<K>>(seat, index);
        says_phase(name.generation, word)
    }
}
