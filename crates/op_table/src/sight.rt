//! Looks at stop sources.
ghost use Rattle.std.specs.Prelude.{◌≡◌, ◌≤◌, ◌<◌, None};
ghost use Rattle.node_tree.specs.declared.node.TheConstants.{MOST_NODES};
ghost use Rattle.life_rules.specs.declared.limits.TheConstants.{MOST_BLOCKS};
ghost use Rattle.life_rules.specs.declared.event.SourceRef.TheVariants.{Scope};
ghost use Rattle.table_words.specs.Layouts.{IsSpot, index, words_in};
ghost use Rattle.table_steps.specs.Views.{IsHandOf, Stays, knows};
ghost use Rattle.table_steps.specs.Sights.{spot_of, says_requested, IsSourceIn, MayLookAfter, IsLookedAt, StillAsked, AgreesWithTold};

use crate::plays::{Regard, Sights};
use crate::table::{Hand, OpTable, SeatOf};
use life_rules::{Name, SourceRef};
use std::marker::Brand;
use table_rules::Cargo;
use table_words::{Layout, SCOPE_SOURCE, read_source, stamp};

// The index of the source's word.
pub(crate) fn source_index(layout: &Layout, source: SourceRef) -> usize
    requires blocks { layout.now.blocks ≤ MOST_BLOCKS }
    requires nodes { layout.now.nodes ≤ MOST_NODES }
    requires spot { IsSpot layout.now (spot_of source) }
    ensures value { result ≡ index layout.now (spot_of source) }
    ensures within { result < words_in layout.now }
{
    match source {
        SourceRef::Scope => SCOPE_SOURCE,
        SourceRef::Node(name) => layout.source(name.block, name.node),
    }
}

// The word says that a stop is requested on the source: the scope's always, a node's at its
// generation.
fn says_requested(source: SourceRef, word: u64) -> bool
    ensures { result ≡ says_requested source word }
{
    match source {
        SourceRef::Scope => read_source(word).requested,
        SourceRef::Node(name) => stamp(word) == name.generation && read_source(word).requested,
    }
}

impl<P: Cargo> OpTable<P> {
    /// Whether a stop is requested on the source ([stopsource], `stop_requested`): the bit of the
    /// word that was read. Of a source whose operation has ended the answer says nothing.
    ///
    /// Step: one load of the source's word.
    /// Needs: a source of the table. After an arming: this hand armed the place and hasn't looked
    /// after it yet, and the place's callback is registered on this source.
    /// Afterwards: the place is looked after. A request that was read is seen, and was read after
    /// the place was armed. One that was seen before still stands: the answer is true, where the
    /// source can't go away under the hand. So does one that the hand was told of when it came to
    /// hold a node that hears the source, or whose children hear it.
    pub fn look_step(&self, hand: &mut Hand<P>, source: SourceRef, after: Option<Name>) -> bool
        requires table { IsHandOf self.now hand.old }
        requires source { IsSourceIn self.now source }
        requires after { MayLookAfter self.now.frame.tree (knows hand.old) source after }
        ensures stays { Stays self.now hand.old hand.new }
        ensures looked { IsLookedAt self.now source after result hand.old hand.new }
        ensures stands { StillAsked (knows hand.old) source result }
        ensures told { AgreesWithTold self.now.frame.tree (knows hand.old) source result }
    {
        self.look_after::<Brand>(&mut hand.seat, source, after)
    }

    fn look_after<K: Regard>(
        &self,
        seat: &mut SeatOf<P>,
        source: SourceRef,
        after: Option<Name>,
    ) -> bool
        requires table { IsHandOf self.now seat.old }
        requires source { IsSourceIn self.now source }
        requires after { MayLookAfter self.now.frame.tree (knows seat.old) source after }
        requires tree_is { K.tree ≡ self.now.frame.tree }
        requires source_is { K.source ≡ source }
        requires after_is { K.after ≡ after }
        ensures stays { Stays self.now seat.old seat.new }
        ensures looked { IsLookedAt self.now source after result seat.old seat.new }
        ensures stands { StillAsked (knows seat.old) source result }
        ensures told { AgreesWithTold self.now.frame.tree (knows seat.old) source result }
    {
        let index = source_index(&self.frame.layout, source);
        let word = self.table.load::<Sights<K>>(seat, index);
        says_requested(source, word)
    }
}
