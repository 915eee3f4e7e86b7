//! What a scope's word says.
ghost use Rattle.life_rules.specs.Scopes.{scope_state};
ghost use Rattle.table_steps.specs.Views.{IsHandOf, Stays};
ghost use Rattle.count_scope.specs.Looks.{Reads};

use life_rules::ScopeState;
use stop_calls::{Cargo, Hand, OpTable};

/// Whether the scope is joined. If it is, it stays so.
///
/// Step: one load of the scope's word.
pub fn is_joined<P: Cargo>(table: &OpTable<P>, hand: &mut Hand<P>) -> bool
    requires table { IsHandOf table.now hand.old }
    ensures stays { Stays table.now hand.old hand.new }
    ensures read { Reads (λ w. w.joined) result hand.old.me hand.new.me }
{
    table.scope_step(hand).joined
}

/// In which of its seven states the scope is ([exec.scope.simple.counting]).
///
/// Step: one load of the scope's word.
pub fn state<P: Cargo>(table: &OpTable<P>, hand: &mut Hand<P>) -> ScopeState
    requires table { IsHandOf table.now hand.old }
    ensures stays { Stays table.now hand.old hand.new }
    ensures read { Reads scope_state result hand.old.me hand.new.me }
{
    life_rules::scope_state(table.scope_step(hand))
}
