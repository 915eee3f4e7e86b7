//! How a relay is opened and closed.
ghost use Rattle.std.specs.Prelude.{◌≡◌, ◌+◌, ◌-◌, ◌^◌, ◌≤◌, IfOk, min};
ghost use Rattle.deck_relay.specs.Relays.{AreOpened, CameBack, TakenAndLeft};
ghost use Rattle.deck_relay.specs.Openings.{AreBare};

use crate::columns::{add_column, take_column};
use crate::deck::Deck;
use crate::queues::{Line, ROOM, Shared, TotalQueue};
use crate::tokens::Cut;
use std::alloc::{AllocError, Global};
use std::sync::{Arc, Wait};

/// The decks of one pool.
pub struct Relay;

impl Relay {
    /// A deck for each worker, and last the deck of hand 0. It fails only for want of memory.
    pub fn open(alloc: Global, workers: u32) -> Result<Vec<Deck>, AllocError>
        requires some { 1 ≤ workers }
        requires most { workers ≤ 16 }
        ensures { IfOk result (λ decks. AreOpened (workers + 1) decks.items) }
    {
        let mut decks = bare_decks(alloc, workers)?;
        for column in 0..decks.len() {
            add_column(&mut decks, column)?;
        }
        Ok(decks)
    }

    /// Closes a relay, of which all decks came back, and counts the names that are left, as far as
    /// the number counts.
    pub fn close<R: Wait>(rt: &R, decks: Vec<Deck>) -> u32
        requires all { CameBack decks.items }
        ensures law { TakenAndLeft result decks.items }
    {
        // A thief gives nothing, so what it took may go to the deque's owner, which knows the whole
        // once every theft of it came back.
        let mut decks = decks;
        let mut column = decks.len();
        'columns: while column > 0 {
            column -= 1;
            take_column(&mut decks, column);
        }
        let Some(mut last) = decks.pop() else {
            unreachable!()
        };
        let mut left = counted(0, last.count());
        let (queue, mut whole) = last.into_parts();
        while let Some(mut deck) = decks.pop() {
            left = counted(left, deck.count());
            let (same, pass) = deck.into_parts();
            drop(same);
            queue.line.absorb::<Cut>(&mut whole, pass);
        }
        counted(left, queue.line.len_as::<TotalQueue, R>(rt, &mut whole))
    }
}

// The decks of a relay that have no thefts yet.
fn bare_decks(alloc: Global, workers: u32) -> Result<Vec<Deck>, AllocError>
    requires most { workers ≤ 16 }
    ensures { IfOk result (λ decks. AreBare (workers + 1) decks.items) }
{
    let (line, mut rest) = Line::ruled(alloc, ROOM)?;
    let queue = Arc::new(alloc, Shared { line })?;
    let mut sleepers = sleepers::open(alloc, workers + 1)?;
    let mut decks = Vec::with_capacity(alloc, workers as usize + 1)?;
    for _place in 0..workers {
        let pass = queue.line.another::<Cut>(&mut rest);
        decks.push(Deck::bare(alloc, &queue, pass, sleepers.remove(0))?)?;
    }
    decks.push(Deck::bare(alloc, &queue, rest, sleepers.remove(0))?)?;
    Ok(decks)
}

// The sum, as far as the number counts.
fn counted(count: u32, more: usize) -> u32
    ensures { result ≡ min (count + more) (2 ^ 32 - 1) }
{
    let room = u32::MAX - count;
    if more < room as usize {
        count + more as u32
    } else {
        u32::MAX
    }
}
