//! What follows from the clauses of a deck's calls.
ghost use Rattle.deck_relay.specs.Laws.{NothingIsMoved, OwnIsOnce, SharedIsOnce, StolenIsOnce, TakenIsOnce};

/// A name that came in stands once more among those that the deck offered or pushed, and one that
/// was taken once more among those that it took. A name that a steal moved to the deck's own deque
/// stands once more in both. All others stand there as often as before.
pub fn names_count_once()
    ensures own { OwnIsOnce }
    ensures shared { SharedIsOnce }
    ensures taken { TakenIsOnce }
    ensures stolen { StolenIsOnce }
    ensures nothing { NothingIsMoved }
{}
