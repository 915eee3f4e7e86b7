//! What follows for stop callbacks ([stopcallback]).
ghost use Rattle.table_laws.specs.Laws.{NeverAgain, RunsOnce, MissesNone, RemovedForGood};
ghost use Rattle.table_laws.specs.Lasting.{SealMissesNone};

use table_rules::Cargo;

/// A stop callback runs at most once, never after its removal, and none is missed by a request.
pub fn callbacks_run_once<P: Cargo>()
    ensures never_again { NeverAgain P.Cargo }
    ensures runs_once { RunsOnce P.Cargo }
    ensures removed_for_good { RemovedForGood P.Cargo }
    ensures misses_none { MissesNone P.Cargo }
    ensures seal_misses_none { SealMissesNone P.Cargo }
{}
