//! A look at the counting scope (P3149, [exec.scope]).
ghost use Rattle.table_steps.specs.Views.{IsHandOf, Stays};
ghost use Rattle.table_steps.specs.ScopeMoves.{ReadsScope};

use crate::plays::Looks;
use crate::table::{Hand, OpTable, SeatOf};
use life_rules::ScopeWord;
use table_rules::Cargo;
use table_words::{SCOPE, read_scope};

impl<P: Cargo> OpTable<P> {
    /// The scope's word, which was read.
    ///
    /// Step: one load of the scope's word.
    pub fn scope_step(&self, hand: &mut Hand<P>) -> ScopeWord
        requires table { IsHandOf self.now hand.old }
        ensures stays { Stays self.now hand.old hand.new }
        ensures read { ReadsScope result hand.old hand.new }
    {
        self.scope_at(&mut hand.seat)
    }

    fn scope_at(&self, seat: &mut SeatOf<P>) -> ScopeWord
        requires table { IsHandOf self.now seat.old }
        ensures stays { Stays self.now seat.old seat.new }
        ensures read { ReadsScope result seat.old seat.new }
    {
        let word = self.table.load::<Looks>(seat, SCOPE);
        read_scope(word)
    }
}
