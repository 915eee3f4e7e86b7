//! How a scope is closed and joined (P3149, [exec.counting.scopes]).
ghost use Rattle.std.specs.Prelude.{◌≡◌};
ghost use Rattle.table_steps.specs.Views.{IsHandOf, Stays};
ghost use Rattle.count_scope.specs.Joins.{start_of, start_after, Starts};
ghost use Rattle.count_scope.specs.Looks.{Closes};

use crate::seals::{is_settled, seal};
use life_rules::ScopeWord;
use stop_calls::{Cargo, Hand, OpTable};

/// Whether the scope is joined as its join starts.
#[derive(Clone, Copy, Debug, PartialEq, Eq)]
pub enum JoinStart {
    /// It is: no association is left, and none is made any more.
    Joined,
    /// An association was counted. The last one to leave seals the scope.
    Waiting,
}

// What the join answers by a word that asks no seal.
fn start_of(word: ScopeWord) -> JoinStart
    ensures { result ≡ start_of word }
{
    if word.joined {
        JoinStart::Joined
    } else {
        JoinStart::Waiting
    }
}

// What it answers by how the seal ended.
fn start_after(sealed: Result<(), ScopeWord>) -> JoinStart
    ensures { result ≡ start_after sealed }
{
    match sealed {
        Ok(()) => JoinStart::Joined,
        Err(read) => start_of(read),
    }
}

/// Closes the scope: from then on each association is refused.
///
/// Step: one fetch_or of the scope's word, which sets the closed bit.
pub fn close<P: Cargo>(table: &OpTable<P>, hand: &mut Hand<P>)
    requires table { IsHandOf table.now hand.old }
    ensures stays { Stays table.now hand.old hand.new }
    ensures closed { Closes hand.old.me hand.new.me }
{
    let _ = table.close_step(hand);
}

/// Starts the join of the scope: from then on the last association to leave seals it. Where none is
/// counted this call seals it itself, so an unused scope is joined at once.
///
/// Joined only where a word that this call read was joined, or a try of this call sealed; Waiting
/// only where a word that it read counted an association.
///
/// Step: one fetch_or of the scope's word, which sets the joining bit, and then at most three
/// exchanges.
pub fn start_join<P: Cargo>(table: &OpTable<P>, hand: &mut Hand<P>) -> JoinStart
    requires table { IsHandOf table.now hand.old }
    ensures stays { Stays table.now hand.old hand.new }
    ensures starts { Starts result hand.old.me hand.new.me }
{
    let read = table.join_step(hand);
    let left = ScopeWord {
        joining: true,
        ..read
    };
    if is_settled(left) {
        return start_of(left);
    }
    start_after(seal(table, hand, left))
}
