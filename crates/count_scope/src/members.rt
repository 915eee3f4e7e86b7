//! Associations: places in the scope's count (P3149, [exec.scope]).
ghost use Rattle.table_steps.specs.Views.{IsHandOf, Stays, knows};
ghost use Rattle.table_steps.specs.ScopeEntries.{MayEnter};
ghost use Rattle.count_scope.specs.Leaves.{HasAssociation, disassociated, Leaves};
ghost use Rattle.count_scope.specs.Associations.{Associates, CountsOne};

use crate::seals::leave;
use life_rules::{Refused, refusal};
use stop_calls::{Cargo, Hand, OpTable};

/// A place in the scope's count. It has no drop: who has it gives it back, by `disassociate`.
#[must_use]
pub struct Association {
    pub(crate) place: (),
}

/// Makes an association, or answers why the scope takes none. That is decided by the word that the
/// entry read: joined, then closed, then as many as the scope takes.
///
/// Step: one fetch_add of the scope's word. Then, where the used bit was clear, one fetch_or; or,
/// where it is refused, one fetch_sub, and at most three exchanges where that left the last.
/// Needs: the hand has no association in the making or being refused.
/// Afterwards: the hand has one association more, or as many as before.
pub fn associate<P: Cargo>(table: &OpTable<P>, hand: &mut Hand<P>) -> Result<Association, Refused>
    requires table { IsHandOf table.now hand.old }
    requires settled { MayEnter (knows hand.old) }
    ensures stays { Stays table.now hand.old hand.new }
    ensures associated { Associates table.now.frame.most result hand.old.me hand.new.me }
    ensures counted { CountsOne result hand.old.me hand.new.me }
{
    let word = table.enter_step(hand);
    if let Some(cause) = refusal(word, table.most()) {
        leave(table, hand);
        return Err(cause);
    }
    if word.used {
        return Ok(Association { place: () });
    }
    table.mark_used_step(hand);
    Ok(Association { place: () })
}

/// Gives the association back. Where it was the last of a scope whose join was started, this call
/// seals the scope, or a try of its seal read that the scope was joined, or that an association was
/// counted, whose own end seals then.
///
/// Step: one fetch_sub of the scope's word, and then at most three exchanges.
/// Needs: the hand has an association, and none in the making or being refused.
/// Afterwards: the hand has one association less.
pub fn disassociate<P: Cargo>(table: &OpTable<P>, hand: &mut Hand<P>, association: Association)
    requires table { IsHandOf table.now hand.old }
    requires has { HasAssociation (knows hand.old) }
    ensures stays { Stays table.now hand.old hand.new }
    ensures left { Leaves (disassociated hand.old.me) hand.new.me }
{
    let Association { place: () } = association;
    leave(table, hand);
}
