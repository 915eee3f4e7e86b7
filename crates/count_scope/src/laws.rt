//! What follows for the calls on a scope (P3149, [exec.counting.scopes]): what one left stays so,
//! and each lists the steps that it makes.
ghost use Rattle.count_scope.specs.Lasting.{StartedIsEmpty, LeftIsEmpty, AssociatedIsUsed, ClosedStays};
ghost use Rattle.count_scope.specs.CallLists.{ScopeCallsListTheirSteps};

use stop_calls::Cargo;

/// Laws of every table that keeps the rule and in which some hand still lists the call's steps.
/// Once `start_join` answered that the scope is joined, or a `disassociate` sealed it, no
/// association is made any more, and each that a hand has is one that is being refused. Once one
/// was made, the scope is never unused again, and once it was closed, it is never open again.
pub fn scopes_stay_so<P: Cargo>()
    ensures started { StartedIsEmpty P.Cargo }
    ensures left { LeftIsEmpty P.Cargo }
    ensures used { AssociatedIsUsed P.Cargo }
    ensures closed { ClosedStays P.Cargo }
{}

/// Each call on a scope lists the steps that it makes, on the scope's word. A look and a close are
/// one step. A leave and the start of a join are one, and one to three tries of a seal more where
/// the word asks for it. An association that is made is one step, or two where the scope wasn't
/// used before; one that is refused is two to five. A request is one step, on the word of the
/// scope's source.
pub fn scope_calls_list_their_steps<P: Cargo>()
    ensures { ScopeCallsListTheirSteps P P.Entry P.Over }
{}
