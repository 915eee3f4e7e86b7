//! How a stop is requested ([stopsource], `request_stop`).
ghost use Rattle.std.specs.Prelude.{◌≡◌, bit_or};
ghost use Rattle.table_steps.specs.Views.{IsHandOf, Stays, knows};
ghost use Rattle.table_steps.specs.Sights.{IsSourceIn};
ghost use Rattle.table_steps.specs.Requests.{mask, AsksAt, MayRequest, IsAsked};

use crate::plays::Regard;
use crate::sight::source_index;
use crate::table::{Hand, OpTable, SeatOf};
use atomic_table::Play;
use life_rules::{Bits, SourceRef};
use std::marker::{Brand, PhantomData};
use table_rules::{Cargo, View};
use table_words::read_source;

/// The step by which a stop is requested.
pub struct Asks<K> {
    regard: PhantomData<K>,
}

impl<P, E, K: Regard> Play<Option<P>, View<P, E>> for Asks<K> {
    ghost then = { λ step m found m'. AsksAt K.source step.word found
        (bit_or found step.first) m m' };
}

// The bits that a request sets: requested, and with a failure failed too.
fn mask(failure: bool) -> u64
    ensures { result ≡ mask failure }
{
    if failure { 3 } else { 1 }
}

impl<P: Cargo> OpTable<P> {
    /// Requests a stop on the source, and tells the bits that were read there. The request is new
    /// exactly where they say that none was made, and then the hand begins a scan of the source's
    /// callbacks.
    ///
    /// Step: one fetch_or of the source's word, which sets requested, and with a failure failed
    /// too.
    /// Needs: with a failure, that the hand owes the report of a child of the source's node, and
    /// that this child failed. Without, that it passes on a request above the node: it runs the
    /// node's callback, or holds the node, whose children were never awaited, and has seen that
    /// request. The scope's source hand 0 requests, where the scope is a counting one. A hand that
    /// has seen the request on a source that can't go away under it may request again: nothing
    /// changes. Afterwards: the request is seen. One that the hand has seen before, on a source
    /// that can't go away under it, was found there: the answer says that it was made already.
    pub fn request_step(&self, hand: &mut Hand<P>, source: SourceRef, failure: bool) -> Bits
        requires table { IsHandOf self.now hand.old }
        requires source { IsSourceIn self.now source }
        requires needs { MayRequest P.Cargo self.now.frame (knows hand.old) source failure }
        ensures stays { Stays self.now hand.old hand.new }
        ensures asked { IsAsked self.now source failure result hand.old hand.new }
    {
        self.request_at::<Brand>(&mut hand.seat, source, failure)
    }

    fn request_at<K: Regard>(&self, seat: &mut SeatOf<P>, source: SourceRef, failure: bool) -> Bits
        requires table { IsHandOf self.now seat.old }
        requires source { IsSourceIn self.now source }
        requires needs { MayRequest P.Cargo self.now.frame (knows seat.old) source failure }
        requires source_is { K.source ≡ source }
        ensures stays { Stays self.now seat.old seat.new }
        ensures asked { IsAsked self.now source failure result seat.old seat.new }
    {
        let index = source_index(&self.frame.layout, source);
        let word = self.table.fetch_or::<Asks<K>>(seat, index, mask(failure));
        read_source(word)
    }
}
