//! How a scan goes through the callbacks of a source ([stopsource.inplace.mem]).
ghost use Rattle.std.specs.Prelude.{◌≡◌, ◌<◌, true, false, IfSome};
ghost use Rattle.table_steps.specs.Views.{IsHandOf, IsPlaceIn, Stays};
ghost use Rattle.table_steps.specs.Sights.{IsSourceIn};
ghost use Rattle.table_steps.specs.ScanSeals.{CanSealScan, IsScanSealed};
ghost use Rattle.stop_calls.specs.Cursors.{first_scan, Stands, NoneHears};
ghost use Rattle.stop_calls.specs.Walks.{IsScanned};
ghost use Rattle.stop_calls.specs.Searches.{must_read, CanEnter, IsBlockMet};

use crate::dues::Due;
use crate::searching::next_place;
use life_rules::{Name, SourceRef};
use op_slot::{Cargo, Hand, OpTable};

/// A scan of a stop source's callbacks, by the hand that made the request. It is spent by `seal`.
#[must_use]
pub struct Scan {
    pub(crate) source: SourceRef,
    // The place from which it goes on. The node may be one past the block's last.
    pub(crate) block: u32,
    pub(crate) node: u32,
}

// A scan of the scope's source reads a block's word before it looks at the block's callbacks, once
// in a call.
fn must_read(source: SourceRef, read: Option<u32>, block: u32) -> bool
    ensures { result ≡ must_read source read block }
{
    match (source, read) {
        (SourceRef::Scope, Some(other)) => other != block,
        (SourceRef::Scope, None) => true,
        (SourceRef::Node(_), _) => false,
    }
}

// Reads the block's word where this call has to. True where it is free: its places are passed.
fn passes_block<P: Cargo>(
    table: &OpTable<P>,
    hand: &mut Hand<P>,
    source: SourceRef,
    read: &mut Option<u32>,
    block: u32,
) -> bool
    requires table { IsHandOf table.now hand.old }
    requires block { block < table.now.frame.layout.blocks }
    requires next { CanEnter table.now.frame.tree source hand.old.me.0 block }
    ensures stays { Stays table.now hand.old hand.new }
    ensures met { IsBlockMet table.now source block read.old read.new hand.old hand.new result }
{
    if !must_read(source, *read, block) {
        return false;
    }
    if table.skip_step(hand, block) {
        return true;
    }
    *read = Some(block);
    false
}

impl Scan {
    // A scan of the source that begins.
    pub(crate) fn from_first(source: SourceRef) -> Scan
        ensures { result ≡ first_scan source }
    {
        Scan {
            source,
            block: 0,
            node: 0,
        }
    }

    /// The source whose callbacks it goes through.
    pub fn source(&self) -> SourceRef
        ensures { result ≡ self.now.source }
    {
        self.source
    }

    /// The next place of the source whose callback is armed, which runs on this hand from now on.
    /// None exactly where no place is left to look at.
    ///
    /// A scan of a node's source goes through the places of its block that hear it, in order; one
    /// of the scope's source through those of all blocks. There each block's word is read first:
    /// where it is free all its places are passed at once.
    ///
    /// Step: for each place that is passed, one load of its callback word, and where it is armed
    /// one exchange of it, armed to running, which loses where the callback is removed first. For
    /// each block, in a scan of the scope's source, one load of its word before.
    /// Needs: the scan stands where the last due ended, and the hand runs no callback of the
    /// source.
    /// Afterwards: the hand runs the place, innermost, and its scan stands at it; or it has passed
    /// all places.
    pub fn next<P: Cargo>(&mut self, table: &OpTable<P>, hand: &mut Hand<P>) -> Option<Due>
        requires table { IsHandOf table.now hand.old }
        requires stands { Stands table.now.frame.tree self.old hand.old.me.0 }
        requires idle { NoneHears table.now.frame.tree self.old.source hand.old.me.0.runs }
        ensures stays { Stays table.now hand.old hand.new }
        ensures source { self.new.source ≡ self.old.source }
        ensures place { IfSome result (λ due. IsPlaceIn table.now due.place) }
        ensures scanned { IsScanned table.now self.old hand.old hand.new self.new result }
    {
        // The block that this call last read as not free.
        let mut read = None;
        while let Some(place) = next_place(self, table.tree(), table.blocks()) {
            if passes_block(table, hand, self.source, &mut read, place.block) {
                self.goes_to(place.block + 1, 0);
                continue;
            }
            self.goes_to(place.block, place.node + 1);
            if let Some(place) = table.run_step(hand, self.source, place.block, place.node) {
                return Some(Due { place });
            }
        }
        None
    }

    fn goes_to(&mut self, block: u32, node: u32)
        ensures { self.new ≡ record { source = self.old.source; block = block; node = node } }
    {
        self.block = block;
        self.node = node;
    }

    /// Ends the scan, after `next` answered None.
    ///
    /// Step: one fetch_or of the source's word, which sets the scanned bit.
    /// Needs: the scan has passed all places.
    /// Afterwards: the hand makes the scan no more.
    pub fn seal<P: Cargo>(self, table: &OpTable<P>, hand: &mut Hand<P>)
        requires table { IsHandOf table.now hand.old }
        requires source { IsSourceIn table.now self.source }
        requires needs { CanSealScan table.now.frame hand.old.me.0 self.source }
        ensures stays { Stays table.now hand.old hand.new }
        ensures sealed { IsScanSealed table.now self.source hand.old hand.new }
    {
        let Scan {
            source,
            block: _,
            node: _,
        } = self;
        table.seal_scan_step(hand, source);
    }
}
