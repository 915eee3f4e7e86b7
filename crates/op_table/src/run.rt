//! How a scan runs the callback of its next place, or passes it ([stopcallback]).
ghost use Rattle.std.specs.Prelude.{◌≡◌, ◌<◌, true, IfSome};
ghost use Rattle.table_steps.specs.Views.{IsHandOf, IsPlaceIn, aim_at, Stays, knows};
ghost use Rattle.table_steps.specs.Runs.{place_named, says_armed, run_index, meets_at, RunsAt, CanRun, IsNewest, IsRun, IsRunFrom};

use crate::plays::{Regard, Subject};
use crate::table::{Hand, OpTable, SeatOf};
use atomic_table::Play;
use life_rules::{CallbackPhase, Name, SourceRef};
use std::marker::{Brand, PhantomData};
use table_rules::{Cargo, View};
use table_words::{callback_number, read_callback, stamp};

/// The load by which a place that isn't armed is passed.
pub struct Meets<K, J> {
    subject: PhantomData<K>,
    regard: PhantomData<J>,
}

impl<P, E, K: Subject, J: Regard> Play<Option<P>, View<P, E>> for Meets<K, J> {
    ghost then = { λ step m found m'. m' ≡ meets_at K.aim J.source step.word found m };
}

/// The exchange by which a callback runs.
pub struct RunsPlace<K, J> {
    subject: PhantomData<K>,
    regard: PhantomData<J>,
}

impl<P, E, K: Subject, J: Regard> Play<Option<P>, View<P, E>> for RunsPlace<K, J> {
    ghost then = { RunsAt K.aim J.source };
}

// The word says that the callback is armed.
fn says_armed(word: u64) -> bool
    ensures { result ≡ says_armed word }
{
    matches!(read_callback(word), CallbackPhase::Armed)
}

impl<P: Cargo> OpTable<P> {
    /// Runs the callback of the scan's next place, where it is armed, and names the node. None only
    /// where a word was read that isn't armed: then the scan has passed the place.
    ///
    /// Steps: one load of the callback word, and where it is armed one exchange of it, armed to
    /// running. The exchange loses where the word changed first. A word that is armed again is of a
    /// later generation, and then the exchange is tried at that; since generations only rise, the
    /// call returns.
    /// Needs: the hand scans the source, this is the next place of that scan, and the hand doesn't
    /// run its callback.
    /// Afterwards: the hand runs the callback of the node that is named, innermost, and its scan is
    /// where it was; or the scan has passed the place.
    pub fn run_step(
        &self,
        hand: &mut Hand<P>,
        source: SourceRef,
        block: u32,
        node: u32,
    ) -> Option<Name>
        requires table { IsHandOf self.now hand.old }
        requires block { block < self.now.frame.layout.blocks }
        requires needs { CanRun self.now.frame.tree (knows hand.old) source block node }
        ensures stays { Stays self.now hand.old hand.new }
        ensures place { IfSome result (IsPlaceIn self.now) }
        ensures run { IsRun self.now source block node result hand.old hand.new }
    {
        let _layout = self.frame.layout;
        let name = self.run_at::<Brand, Brand>(&mut hand.seat, source, block, node)?;
        hand.runs.insert(name);
        Some(name)
    }

    fn run_at<K: Subject, J: Regard>(
        &self,
        seat: &mut SeatOf<P>,
        source: SourceRef,
        block: u32,
        node: u32,
    ) -> Option<Name>
        requires table { IsHandOf self.now seat.old }
        requires block { block < self.now.frame.layout.blocks }
        requires needs { CanRun self.now.frame.tree (knows seat.old) source block node }
        requires subject { K.aim ≡ aim_at self.now (place_named block node) }
        requires source_is { J.source ≡ source }
        ensures stays { Stays self.now seat.old seat.new }
        ensures place { IfSome result (IsPlaceIn self.now) }
        ensures run { IsRun self.now source block node result seat.old seat.new }
    {
        let index = self.frame.layout.callback(block, node);
        let word = self.table.load::<Meets<K, J>>(seat, index);
        if says_armed(word) {
            self.run_from::<K, J>(seat, source, block, node, word)
        } else {
            None
        }
    }

    // Runs the callback, whose word the newest step read as armed, or passes the place.
    fn run_from<K: Subject, J: Regard>(
        &self,
        seat: &mut SeatOf<P>,
        source: SourceRef,
        block: u32,
        node: u32,
        word: u64,
    ) -> Option<Name>
        requires table { IsHandOf self.now seat.old }
        requires block { block < self.now.frame.layout.blocks }
        requires needs { CanRun self.now.frame.tree (knows seat.old) source block node }
        requires armed { says_armed word ≡ true }
        requires newest { IsNewest (run_index self.now block node) word (knows seat.old) }
        requires subject { K.aim ≡ aim_at self.now (place_named block node) }
        requires source_is { J.source ≡ source }
        ensures stays { Stays self.now seat.old seat.new }
        ensures place { IfSome result (IsPlaceIn self.now) }
        ensures run { IsRunFrom self.now source block node word result seat.old seat.new }
    {
        let generation = stamp(word);
        let running = callback_number(generation, CallbackPhase::Running);
        let index = self.frame.layout.callback(block, node);
        let was = self
            .table
            .compare_exchange::<RunsPlace<K, J>>(seat, index, word, running);
        if was == word {
            Some(Name {
                block,
                generation,
                node,
            })
        } else if says_armed(was) {
            self.run_from::<K, J>(seat, source, block, node, was)
        } else {
            None
        }
    }
}
