//! A hand that uses the scope: it associates and leaves, closes and joins, and can associate again.
//! Each call hands on what the call of count_scope that it makes read, left and answered.
ghost use Rattle.life_rules.specs.Scopes.{scope_state};
ghost use Rattle.count_scope.specs.Associations.{Associates};
ghost use Rattle.count_scope.specs.Joins.{Starts};
ghost use Rattle.count_scope.specs.Leaves.{disassociated, Leaves};
ghost use Rattle.count_scope.specs.Looks.{Closes, Reads};
ghost use Rattle.table_use.specs.Members.{MayAssociate, IsMember, IsMemberAs, ComesAndGoes};

use crate::node::{Table, Worker};
use count_scope::{
    Association, JoinStart, Refused, ScopeState, associate, close, disassociate, is_joined,
    start_join, state,
};

/// Associates with the scope.
pub fn enter(table: &Table, hand: &mut Worker) -> Result<Association, Refused>
    requires { MayAssociate table.now hand.old }
    ensures member { IsMemberAs table.now result hand.new }
    ensures associated { Associates table.now.frame.most result hand.old.me hand.new.me }
{
    associate(table, hand)
}

/// Leaves the association.
pub fn leave(table: &Table, hand: &mut Worker, association: Association)
    requires { IsMember table.now hand.old }
    ensures ready { MayAssociate table.now hand.new }
    ensures left { Leaves (disassociated hand.old.me) hand.new.me }
{
    disassociate(table, hand, association);
}

/// Closes the scope.
pub fn shut(table: &Table, hand: &mut Worker)
    requires { MayAssociate table.now hand.old }
    ensures ready { MayAssociate table.now hand.new }
    ensures closed { Closes hand.old.me hand.new.me }
{
    close(table, hand);
}

/// Begins to join the scope.
pub fn join_now(table: &Table, hand: &mut Worker) -> JoinStart
    requires { MayAssociate table.now hand.old }
    ensures ready { MayAssociate table.now hand.new }
    ensures starts { Starts result hand.old.me hand.new.me }
{
    start_join(table, hand)
}

/// The state of the scope.
pub fn look(table: &Table, hand: &mut Worker) -> ScopeState
    requires { MayAssociate table.now hand.old }
    ensures ready { MayAssociate table.now hand.new }
    ensures read { Reads scope_state result hand.old.me hand.new.me }
{
    state(table, hand)
}

/// Whether the scope is joined.
pub fn has_joined(table: &Table, hand: &mut Worker) -> bool
    requires { MayAssociate table.now hand.old }
    ensures ready { MayAssociate table.now hand.new }
    ensures read { Reads (λ w. w.joined) result hand.old.me hand.new.me }
{
    is_joined(table, hand)
}

/// An association is made, and left at once; or it is refused, which is told.
pub fn pass(table: &Table, hand: &mut Worker) -> Option<Refused>
    requires { MayAssociate table.now hand.old }
    ensures ready { MayAssociate table.now hand.new }
    ensures passed { ComesAndGoes table.now.frame.most result hand.old.me hand.new.me }
{
    match enter(table, hand) {
        Ok(association) => {
            leave(table, hand, association);
            None
        }
        Err(cause) => Some(cause),
    }
}
