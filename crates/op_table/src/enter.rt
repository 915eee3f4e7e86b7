//! How an association with the counting scope begins (P3149, [exec.scope]).
ghost use Rattle.std.specs.Prelude.{◌≡◌, ℕ};
ghost use Rattle.table_steps.specs.Views.{IsHandOf, Stays, knows};
ghost use Rattle.table_steps.specs.Lefts.{plus_one};
ghost use Rattle.table_steps.specs.ScopeMoves.{MovesScopeAt, with_one_more};
ghost use Rattle.table_steps.specs.ScopeEntries.{MayEnter, enters, IsEntered};

use crate::table::{Hand, OpTable, SeatOf};
use atomic_table::Play;
use life_rules::ScopeWord;
use std::marker::{Brand, PhantomData};
use table_rules::{Cargo, View};
use table_words::{SCOPE, read_scope};

/// The most associations that the scope takes. A call picks it.
pub trait Room {
    ghost most: { ℕ };
}

impl Room for Brand {
    ghost most = { 0 };
}

/// The step by which the scope is entered.
pub struct Enters<K> {
    room: PhantomData<K>,
}

impl<P, E, K: Room> Play<Option<P>, View<P, E>> for Enters<K> {
    ghost then = { λ step m found m'. MovesScopeAt with_one_more (enters K.most) step.word found
        (plus_one found) m m' };
}

impl<P: Cargo> OpTable<P> {
    /// Enters the scope, and tells the word that was read. By that word the association is refused,
    /// or kept; the count is one more in both cases, until it is left.
    ///
    /// Step: one fetch_add of the scope's word, the count and one.
    /// Needs: the hand has no association in the making or being refused.
    /// Afterwards: the hand has one that is being refused; or one that is made, where the used bit
    /// was set; else one in the making.
    pub fn enter_step(&self, hand: &mut Hand<P>) -> ScopeWord
        requires table { IsHandOf self.now hand.old }
        requires enters { MayEnter (knows hand.old) }
        ensures stays { Stays self.now hand.old hand.new }
        ensures entered { IsEntered self.now result hand.old hand.new }
    {
        self.enter_at::<Brand>(&mut hand.seat)
    }

    fn enter_at<K: Room>(&self, seat: &mut SeatOf<P>) -> ScopeWord
        requires table { IsHandOf self.now seat.old }
        requires enters { MayEnter (knows seat.old) }
        requires room { K.most ≡ self.now.frame.most }
        ensures stays { Stays self.now seat.old seat.new }
        ensures entered { IsEntered self.now result seat.old seat.new }
    {
        let word = self.table.fetch_add::<Enters<K>>(seat, SCOPE, 1);
        read_scope(word)
    }
}
