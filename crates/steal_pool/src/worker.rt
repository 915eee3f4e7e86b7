//! A worker.
ghost use Rattle.std.specs.Prelude.{◌≡◌};

use crate::arranged::Arranged;
use crate::worker_mail::WorkerMail;
use deck_relay::Desk;
use exec_recv::Item;
use op_slot::Hand;
use sleepers::Vigil;

/// A worker on a hand of a table. Its type keeps no fact of the hand: each call that takes the
/// table asks that the hand is one of its hands, and at rest, and leaves it so.
#[derive(Drop)]
pub struct Worker {
    /// The hand on which it works.
    pub hand: Hand<Item>,
    pub(crate) offers: WorkerMail,
}

impl Worker {
    /// A worker on the hand, with this backend, which is in its order. With a desk it submits names
    /// of the deck to its backend where that has none, and what it leaves ready goes to its
    /// backend, to the deck, or to the loop. It wants no memory.
    pub fn new(hand: Hand<Item>, backend: Arranged, desk: Option<Desk>) -> Worker
        ensures hand { result.hand ≡ hand }
        ensures backend { result.offers.backend ≡ backend }
        ensures desk { result.offers.desk ≡ desk }
    {
        Worker {
            hand,
            offers: WorkerMail {
                backend,
                desk,
                vigil: Vigil::new(),
                has_own: false,
                held: 0,
                lost: false,
                endless: false,
            },
        }
    }

    /// The worker's hand, and its desk, where it has one. Its backend is dropped.
    pub fn into_parts(self) -> (Hand<Item>, Option<Desk>)
        ensures hand { result.0 ≡ self.hand }
        ensures desk { result.1 ≡ self.offers.desk }
    {
        let Worker { hand, offers } = self;
        (hand, offers.into_desk())
    }
}
