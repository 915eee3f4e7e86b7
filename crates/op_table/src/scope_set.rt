//! The steps that close the counting scope and start its join (P3149, [exec.scope]).
//!
//! Each sets a bit of the scope's word, and lists what it read and what it left. So a hand knows of
//! a bit that it set: each word of the scope that it reads afterwards has it.
ghost use Rattle.std.specs.Prelude.{◌≡◌, bit_or};
ghost use Rattle.table_steps.specs.Views.{IsHandOf, Stays};
ghost use Rattle.table_steps.specs.Claims.{with_step};
ghost use Rattle.table_steps.specs.ScopeSets.{SetsScope, closing, joining};

use crate::table::{Hand, OpTable, SeatOf};
use atomic_table::Play;
use life_rules::ScopeWord;
use table_rules::{Cargo, View};
use table_words::{SCOPE, read_scope};

/// No association is made any more.
const CLOSED: u64 = 1 << 33;

/// Someone waits for the last association to be left.
const JOINING: u64 = 1 << 34;

/// A step that sets bits, and tells nothing but that.
pub struct Sets;

impl<P, E> Play<Option<P>, View<P, E>> for Sets {
    ghost then = { λ step m found m'. m' ≡ (
      with_step step.word found (bit_or found step.first) m.0,
      m.1,
    ) };
}

impl<P: Cargo> OpTable<P> {
    /// Closes the scope, and tells the word that was read.
    ///
    /// Step: one fetch_or of the scope's word, which sets the closed bit.
    pub fn close_step(&self, hand: &mut Hand<P>) -> ScopeWord
        requires table { IsHandOf self.now hand.old }
        ensures stays { Stays self.now hand.old hand.new }
        ensures closed { SetsScope closing result hand.old hand.new }
    {
        self.close_at(&mut hand.seat)
    }

    fn close_at(&self, seat: &mut SeatOf<P>) -> ScopeWord
        requires table { IsHandOf self.now seat.old }
        ensures stays { Stays self.now seat.old seat.new }
        ensures closed { SetsScope closing result seat.old seat.new }
    {
        let word = self.table.fetch_or::<Sets>(seat, SCOPE, CLOSED);
        read_scope(word)
    }

    /// Starts the join of the scope, and tells the word that was read.
    ///
    /// Step: one fetch_or of the scope's word, which sets the joining bit.
    pub fn join_step(&self, hand: &mut Hand<P>) -> ScopeWord
        requires table { IsHandOf self.now hand.old }
        ensures stays { Stays self.now hand.old hand.new }
        ensures joins { SetsScope joining result hand.old hand.new }
    {
        self.join_at(&mut hand.seat)
    }

    fn join_at(&self, seat: &mut SeatOf<P>) -> ScopeWord
        requires table { IsHandOf self.now seat.old }
        ensures stays { Stays self.now seat.old seat.new }
        ensures joins { SetsScope joining result seat.old seat.new }
    {
        let word = self.table.fetch_or::<Sets>(seat, SCOPE, JOINING);
        read_scope(word)
    }
}
