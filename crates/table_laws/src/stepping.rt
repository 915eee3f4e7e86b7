//! What follows for the list of a hand's steps: each call lists the steps that it makes.
ghost use Rattle.table_laws.specs.CallLists.{NodesListTheirSteps, CallbacksListTheirSteps, BlocksListTheirSteps, SourcesListTheirSteps, ScopesListTheirSteps, ListedIsMade};

use table_rules::Cargo;

/// A step of an operation is one step on its node's control word, save that a node with a stop
/// source begins with one more, on that source's word.
pub fn operations_list_their_steps<P: Cargo>()
    ensures { NodesListTheirSteps P.Cargo }
{}

/// A step on a callback, a block, a stop source or the counting scope is one step on its word. A
/// claim may load its word first, and a scan may read a place's word again.
pub fn calls_list_their_steps<P: Cargo>()
    ensures callbacks { CallbacksListTheirSteps P P.Entry P.Over }
    ensures blocks { BlocksListTheirSteps P P.Entry P.Over }
    ensures sources { SourcesListTheirSteps P P.Entry P.Over }
    ensures scopes { ScopesListTheirSteps P P.Entry P.Over }
{}

/// What lists a step isn't what lists none: a call that made no step lists none.
pub fn listed_steps_are_made<P: Cargo>()
    ensures { ListedIsMade P P.Entry }
{}
