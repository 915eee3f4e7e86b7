//! What hand 0 works with.
ghost use Rattle.std.specs.Prelude.{◌≡◌, is_some};
ghost use Rattle.deck_relay.specs.Desks.{deck_in, post_in};

use deck_relay::{Deck, Desk};
use exec_recv::Item;
use loop_queue::LoopPost;
use op_slot::Hand;

/// Hand 0 of a table. Beside workers it has a desk: from its deck they take what is ready in the
/// pool, and through its post it drains the names of what they left ready in the loop.
#[derive(Drop)]
pub struct Own {
    pub hand: Hand<Item>,
    pub desk: Option<Desk>,
}

/// The parts of a desk, where there is one.
pub(crate) fn parts_of(desk: Option<Desk>) -> (Option<Deck>, Option<LoopPost>)
    ensures deck { result.0 ≡ deck_in desk }
    ensures post { result.1 ≡ post_in desk }
{
    match desk {
        None => (None, None),
        Some(Desk { deck, post }) => (Some(deck), Some(post)),
    }
}

/// The desk of these parts. Neither comes without the other, so none is lost.
pub(crate) fn desk_of(deck: Option<Deck>, post: Option<LoopPost>) -> Option<Desk>
    requires together { is_some deck ≡ is_some post }
    ensures deck { deck_in result ≡ deck }
    ensures post { post_in result ≡ post }
{
    match (deck, post) {
        (None, None) => None,
        (Some(deck), Some(post)) => Some(Desk { deck, post }),
        _ => unreachable!(),
    }
}
