//! How a scope is sealed by the last that leaves it.
//!
//! The leave that brings the count of a joining scope to 0 is one step, and the seal is another,
//! an exchange. Between them an association may be made (then its own leave seals), or another hand
//! may seal. Where only the used or the closed bit was set between, the exchange fails on a word
//! that may be sealed still, and is tried again. Neither bit is ever cleared, so there are three
//! tries at most.
ghost use Rattle.std.specs.Prelude.{◌≡◌, true};
ghost use Rattle.life_rules.specs.Scopes.{may_seal};
ghost use Rattle.table_steps.specs.Views.{IsHandOf, Stays, knows};
ghost use Rattle.table_steps.specs.ScopeMoves.{MayLeaveScope};
ghost use Rattle.count_scope.specs.Tries.{is_settled};
ghost use Rattle.count_scope.specs.Seals.{IsFresh, Seals};
ghost use Rattle.count_scope.specs.Leaves.{is_last, with_one_left, Leaves};

use life_rules::ScopeWord;
use stop_calls::{Cargo, Hand, OpTable};

/// No seal is asked of the hand that read this word.
pub(crate) fn is_settled(word: ScopeWord) -> bool
    ensures { result ≡ is_settled word }
{
    word.joined || !(word.count == 0)
}

// A leave that read this word left the last association of a scope that joins.
fn is_last(word: ScopeWord) -> bool
    ensures { result ≡ is_last word }
{
    word.count == 1 && (word.joining && !word.joined)
}

/// Seals the scope. The word that the last try read, where that asks no seal any more.
///
/// Step: one to three exchanges of the scope's word, the first of which expects this word.
/// Needs: the hand's last step read or left a word with these bits.
pub(crate) fn seal<P: Cargo>(
    table: &OpTable<P>,
    hand: &mut Hand<P>,
    first: ScopeWord,
) -> Result<(), ScopeWord>
    requires table { IsHandOf table.now hand.old }
    requires seals { may_seal first ≡ true }
    requires fresh { IsFresh first (knows hand.old).steps }
    ensures stays { Stays table.now hand.old hand.new }
    ensures sealed { Seals first result hand.old.me hand.new.me }
{
    let Err(second) = table.seal_step(hand, first) else {
        return Ok(());
    };
    if is_settled(second) {
        return Err(second);
    }
    let Err(third) = table.seal_step(hand, second) else {
        return Ok(());
    };
    if is_settled(third) {
        return Err(third);
    }
    table.seal_step(hand, third)
}

/// Leaves the scope, and seals it where that left the last association of a scope that joins.
///
/// Step: one fetch_sub of the scope's word, and then at most three exchanges.
/// Needs: the hand has an association that is made or being refused.
pub(crate) fn leave<P: Cargo>(table: &OpTable<P>, hand: &mut Hand<P>)
    requires table { IsHandOf table.now hand.old }
    requires leaves { MayLeaveScope (knows hand.old) }
    ensures stays { Stays table.now hand.old hand.new }
    ensures left { Leaves (with_one_left hand.old.me) hand.new.me }
{
    let word = table.leave_step(hand);
    if !is_last(word) {
        return;
    }
    let _ = seal(table, hand, ScopeWord { count: 0, ..word });
}
