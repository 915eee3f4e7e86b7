//! A callback that runs ([stopcallback.inplace.cons]).
ghost use Rattle.std.specs.Prelude.{◌≡◌};
ghost use Rattle.table_steps.specs.Views.{IsHandOf, IsPlaceIn, Stays};
ghost use Rattle.stop_calls.specs.Removals.{MayEndRun, IsOver};

use life_rules::Name;
use op_slot::{Cargo, Hand, OpTable};

/// A callback that this hand runs, since a scan came to it: the caller does what it says, and then
/// spends it by `finish`.
#[must_use]
pub struct Due {
    pub(crate) place: Name,
}

impl Due {
    /// The place whose callback runs.
    pub fn place(&self) -> Name
        ensures { result ≡ self.now.place }
    {
        self.place
    }

    /// Ends the run. Where the callback was removed from inside it the run is over already: then
    /// this makes no step, and the callback's place isn't touched any more.
    ///
    /// Step: one swap of the callback word, running to ran; none after a removal from inside.
    /// Needs: the hand makes no scan of the node's own source: a request that was passed on is
    /// sealed.
    /// Afterwards: the hand no longer runs the callback, and its scan has passed the place.
    pub fn finish<P: Cargo>(self, table: &OpTable<P>, hand: &mut Hand<P>)
        requires table { IsHandOf table.now hand.old }
        requires place { IsPlaceIn table.now self.place }
        requires needs { MayEndRun hand.old.me.0 self.place }
        ensures stays { Stays table.now hand.old hand.new }
        ensures over { IsOver table.now self.place hand.old hand.new }
    {
        let Due { place } = self;
        if table.runs(hand, place) {
            table.end_run_step(hand, place);
        }
    }
}
