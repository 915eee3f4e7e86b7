//! The callbacks that a hand runs.
ghost use Rattle.std.specs.Prelude.{◌≡◌, nat_le};
ghost use Rattle.table_steps.specs.Views.{IsHandOf, IsPlaceIn, knows};
ghost use Rattle.table_steps.specs.Remembers.{running};

use crate::table::{Hand, OpTable};
use life_rules::Name;
use table_rules::Cargo;

impl<P: Cargo> OpTable<P> {
    /// Whether this hand runs the node's callback now.
    ///
    /// No step: the hand remembers what it runs.
    pub fn runs(&self, hand: &Hand<P>, name: Name) -> bool
        requires table { IsHandOf self.now hand.now }
        requires place { IsPlaceIn self.now name }
        ensures { result ≡ nat_le 1 (running (knows hand.now) name) }
    {
        let _layout = self.frame.layout;
        hand.runs.contains(name)
    }
}
