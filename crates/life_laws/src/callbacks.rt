//! What follows for stop callbacks ([stopcallback]).
ghost use Rattle.life_laws.specs.Laws.{RunsOnce, StaysRemoved, MissesNone};

/// A stop callback runs at most once, never after its removal, and none is missed by a request.
pub fn callbacks_run_once()
    ensures runs_once { RunsOnce }
    ensures stays_removed { StaysRemoved }
    ensures misses_none { MissesNone }
{}
