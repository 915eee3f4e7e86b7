//! How a scan of a stop source ends.
ghost use Rattle.std.specs.Prelude.{◌≡◌, bit_or};
ghost use Rattle.table_steps.specs.Views.{IsHandOf, Stays, knows};
ghost use Rattle.table_steps.specs.Sights.{IsSourceIn};
ghost use Rattle.table_steps.specs.ScanSeals.{CanSealScan, SealsScanAt, IsScanSealed};

use crate::plays::Regard;
use crate::sight::source_index;
use crate::table::{Hand, OpTable, SeatOf};
use atomic_table::Play;
use life_rules::SourceRef;
use std::marker::{Brand, PhantomData};
use table_rules::{Cargo, View};

/// All callbacks of the source that were armed before its request have been looked at.
const SCANNED: u64 = 4;

/// The step by which a scan is sealed.
pub struct SealsScan<K> {
    regard: PhantomData<K>,
}

impl<P, E, K: Regard> Play<Option<P>, View<P, E>> for SealsScan<K> {
    ghost then = { λ step m found m'. SealsScanAt K.source step.word found
        (bit_or found step.first) m m' };
}

impl<P: Cargo> OpTable<P> {
    /// Seals the hand's scan of the source.
    ///
    /// Step: one fetch_or of the source's word, which sets the scanned bit.
    /// Needs: the hand scans the source, and its scan has passed all places.
    /// Afterwards: the hand no longer makes the scan. The word that it found was the source's, and
    /// said that a stop was requested, and that no scan was sealed yet.
    pub fn seal_scan_step(&self, hand: &mut Hand<P>, source: SourceRef)
        requires table { IsHandOf self.now hand.old }
        requires source { IsSourceIn self.now source }
        requires needs { CanSealScan self.now.frame (knows hand.old) source }
        ensures stays { Stays self.now hand.old hand.new }
        ensures sealed { IsScanSealed self.now source hand.old hand.new }
    {
        self.seal_scan_at::<Brand>(&mut hand.seat, source);
    }

    fn seal_scan_at<K: Regard>(&self, seat: &mut SeatOf<P>, source: SourceRef)
        requires table { IsHandOf self.now seat.old }
        requires source { IsSourceIn self.now source }
        requires needs { CanSealScan self.now.frame (knows seat.old) source }
        requires source_is { K.source ≡ source }
        ensures stays { Stays self.now seat.old seat.new }
        ensures sealed { IsScanSealed self.now source seat.old seat.new }
    {
        let index = source_index(&self.frame.layout, source);
        let _word = self.table.fetch_or::<SealsScan<K>>(seat, index, SCANNED);
    }
}
