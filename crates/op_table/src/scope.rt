//! The steps of the counting scope (P3149, [exec.scope]), but the entry, the closing and the
//! joining.
//!
//!     in the making --mark_used--> made --leave--> left
//!                            being refused --leave--> left
//!
//! Each bit of the scope's word is set once and never cleared. An exchange seals a scope that joins
//! and whose count came to 0.
ghost use Rattle.std.specs.Prelude.{◌≡◌, true, bit_or};
ghost use Rattle.life_rules.specs.Scopes.{may_seal};
ghost use Rattle.table_steps.specs.Views.{IsHandOf, Stays, knows};
ghost use Rattle.table_steps.specs.Claims.{exchanged};
ghost use Rattle.table_steps.specs.Lefts.{less_one};
ghost use Rattle.table_steps.specs.ScopeMoves.{IsMaking, MayLeaveScope, makes, leaves_scope, as_used, with_one_less, MovesScopeAt, MovesScope, IsMade, SealsAt, AnswersSeal, IsSealedAs};

use crate::table::{Hand, OpTable, SeatOf};
use atomic_table::Play;
use life_rules::ScopeWord;
use table_rules::{Cargo, View};
use table_words::{SCOPE, read_scope, scope_number};

/// An association was made since.
const USED: u64 = 1 << 32;

/// The step by which an association is made.
pub struct Makes;

impl<P, E> Play<Option<P>, View<P, E>> for Makes {
    ghost then = { λ step m found m'. MovesScopeAt as_used (λ _. makes) step.word found
        (bit_or found step.first) m m' };
}

/// The step by which an association is left.
pub struct Leaves;

impl<P, E> Play<Option<P>, View<P, E>> for Leaves {
    ghost then = { λ step m found m'. MovesScopeAt with_one_less (λ _. leaves_scope) step.word found
        (less_one found) m m' };
}

/// The exchange by which the scope is sealed.
pub struct Seals;

impl<P, E> Play<Option<P>, View<P, E>> for Seals {
    ghost then = { λ step m found m'. SealsAt step.word found (exchanged step found) m m' };
}

// The word that was read, where it isn't the old one.
fn sealed_as(word: u64, old: u64) -> Result<(), ScopeWord>
    ensures { AnswersSeal word old result }
{
    if word == old {
        Ok(())
    } else {
        Err(read_scope(word))
    }
}

impl<P: Cargo> OpTable<P> {
    /// Marks the scope as used, for an association whose entry read that bit as clear.
    ///
    /// Step: one fetch_or of the scope's word, which sets the used bit.
    /// Needs: the hand has an association in the making.
    /// Afterwards: the association is made.
    pub fn mark_used_step(&self, hand: &mut Hand<P>)
        requires table { IsHandOf self.now hand.old }
        requires making { IsMaking (knows hand.old) }
        ensures stays { Stays self.now hand.old hand.new }
        ensures made { IsMade hand.old hand.new }
    {
        self.mark_used_at(&mut hand.seat);
    }

    fn mark_used_at(&self, seat: &mut SeatOf<P>)
        requires table { IsHandOf self.now seat.old }
        requires making { IsMaking (knows seat.old) }
        ensures stays { Stays self.now seat.old seat.new }
        ensures made { IsMade seat.old seat.new }
    {
        let _word = self.table.fetch_or::<Makes>(seat, SCOPE, USED);
    }

    /// Leaves the scope, and tells the word that was read. An association that is being refused
    /// goes first.
    ///
    /// Step: one fetch_sub of the scope's word, the count less one.
    /// Needs: the hand has an association that is made or being refused.
    /// Afterwards: it has one less.
    pub fn leave_step(&self, hand: &mut Hand<P>) -> ScopeWord
        requires table { IsHandOf self.now hand.old }
        requires leaves { MayLeaveScope (knows hand.old) }
        ensures stays { Stays self.now hand.old hand.new }
        ensures left { MovesScope with_one_less leaves_scope result hand.old hand.new }
    {
        self.leave_at(&mut hand.seat)
    }

    fn leave_at(&self, seat: &mut SeatOf<P>) -> ScopeWord
        requires table { IsHandOf self.now seat.old }
        requires leaves { MayLeaveScope (knows seat.old) }
        ensures stays { Stays self.now seat.old seat.new }
        ensures left { MovesScope with_one_less leaves_scope result seat.old seat.new }
    {
        let word = self.table.fetch_sub::<Leaves>(seat, SCOPE, 1);
        read_scope(word)
    }

    /// Seals the scope, which is joined then. Or tells the word that was read, where that says
    /// something else than was expected: then nothing changed.
    ///
    /// Step: one exchange of the scope's word, which sets the joined bit. It loses where the word
    /// changed first. A store would lose an entry that fell between.
    /// Needs: what is expected joins, isn't joined, and counts no association.
    /// Afterwards: the word that was read has each bit that this hand read there before.
    pub fn seal_step(&self, hand: &mut Hand<P>, expected: ScopeWord) -> Result<(), ScopeWord>
        requires table { IsHandOf self.now hand.old }
        requires seals { may_seal expected ≡ true }
        ensures stays { Stays self.now hand.old hand.new }
        ensures sealed { IsSealedAs expected result hand.old hand.new }
    {
        self.seal_at(&mut hand.seat, expected)
    }

    fn seal_at(&self, seat: &mut SeatOf<P>, expected: ScopeWord) -> Result<(), ScopeWord>
        requires table { IsHandOf self.now seat.old }
        requires seals { may_seal expected ≡ true }
        ensures stays { Stays self.now seat.old seat.new }
        ensures sealed { IsSealedAs expected result seat.old seat.new }
    {
        let old = scope_number(expected);
        let new = scope_number(ScopeWord {
            used: expected.used,
            closed: expected.closed,
            joining: expected.joining,
            joined: true,
            count: expected.count,
        });
        let word = self.table.compare_exchange::<Seals>(seat, SCOPE, old, new);
        sealed_as(word, old)
    }
}
