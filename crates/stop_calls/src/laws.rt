//! What follows for the list of a hand's steps: each call lists the steps that it makes.
ghost use Rattle.stop_calls.specs.CallLists.{SourcesListTheirSteps, CallbacksListTheirSteps, ScansListTheirSteps};

use op_slot::Cargo;

/// `request_stop`, `fail_stop`, `stop_requested` and `Scan::seal` are one step on the source's
/// word. `arm` is one on the callback's word, and then one on that of the source that the node
/// hears. `try_withdraw` is one on the callback's word, `withdraw` one or more there, and
/// `Due::finish` one where the hand runs the callback, and else none. `Scan::next` steps on
/// callback words of places that hear the source, and in a scan of the scope's source on block
/// words; last on the word of the callback that it found.
pub fn calls_list_their_steps<P: Cargo>()
    ensures sources { SourcesListTheirSteps P P.Entry P.Over }
    ensures callbacks { CallbacksListTheirSteps P P.Entry P.Over }
    ensures scans { ScansListTheirSteps P P.Entry P.Over }
{}
