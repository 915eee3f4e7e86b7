//! Columns of a relay: what all decks steal through from one deque.
ghost use Rattle.std.specs.Prelude.{◌+◌, ◌<◌, ◌≤◌, IfOk, length};
ghost use Rattle.deck_relay.specs.Columns.{AreStanding};
ghost use Rattle.deck_relay.specs.Adding.{AddsColumn, TakesColumn};

use crate::deck::Deck;
use std::alloc::AllocError;

// Each deck gets a theft of the deque at this place.
pub(crate) fn add_column(decks: &mut Vec<Deck>, column: usize) -> Result<(), AllocError>
    requires most { length decks.old.items ≤ 17 }
    requires there { column < length decks.old.items }
    requires stand { AreStanding (length decks.old.items) column 0 decks.old.items }
    ensures { IfOk result (λ _. AddsColumn column decks.old.items decks.new.items) }
{
    for thief in 0..decks.len() {
        let theft = decks[column].lend()?;
        decks[thief].keep(theft)?;
    }
    Ok(())
}

// The last theft of each deck goes back to the deque at this place.
pub(crate) fn take_column(decks: &mut Vec<Deck>, column: usize)
    requires there { column < length decks.old.items }
    requires stand { AreStanding (length decks.old.items) (column + 1) 0 decks.old.items }
    ensures { TakesColumn column decks.old.items decks.new.items }
{
    let mut ahead = decks.len();
    'back: while ahead > 0 {
        ahead -= 1;
        let Some(theft) = decks[ahead].give_up() else {
            unreachable!()
        };
        decks[column].take_back(theft);
    }
}
