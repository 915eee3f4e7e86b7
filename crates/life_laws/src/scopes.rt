//! What follows for counting scopes (P3149, [exec.scope]).
ghost use Rattle.life_laws.specs.Laws.{JoinedIsEmpty, LeavesOnce, CountsFew, RequestedByHand0};

/// A scope is joined only when each association that was made has left, once.
pub fn scopes_join_once()
    ensures joined_is_empty { JoinedIsEmpty }
    ensures leaves_once { LeavesOnce }
    ensures counts_few { CountsFew }
    ensures requested_by_hand_0 { RequestedByHand0 }
{}
