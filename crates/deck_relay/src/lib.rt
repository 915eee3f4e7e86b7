//! Decks: where the hands of a pool keep the names of nodes that are ready there.
//!
//! Each hand has a deck, hand 0 the last one. A deck has a deque of its own, first in, first out,
//! from which every other deck may steal, and all decks share one queue, which takes what comes
//! from outside and what a deque hands back. A name is a hint: the word of its node decides who
//! takes it, and nothing of a run rests on where its name stands.
//!
//!     name --push--> own deque --take--> taken, by its own deck or by another that steals it
//!       |             |      |
//!       |             |      +--take--> moved: the names behind one that is stolen go to the own
//!       |             |                 deque of the deck that steals it, at most seven
//!       |             v handed back: the deque can't grow
//!       +--offer----> shared queue --take--> taken
//!                        |
//!                        v handed back: the queue was full
//!
//! A deck is seen as the names that it offered or pushed, and those that it took; a name that came
//! back is in neither. A name that moves is in both once more: the deck that moves it takes it from
//! one deque and gives it to its own. The promise, of `Relay::close`: each name was taken and is
//! left, together, exactly as often as it was offered or pushed. The rule of each deque and of the
//! queue is that what all passes gave is what all passes took and then what it holds, name by name
//! (`specs/Rule.antt`).
//!
//! From each deque every deck steals through a pass of its own. So a relay is a square of passes: a
//! deck adds its row, and a column is what all decks steal through from one deque (`columns`).
//!
//!     Relay::open:  a column is added for each deque: its owner lends a share to each deck
//!     Relay::close: column by column each deck gives a pass back, until each owner knows all
//!
//! A desk is the deck of a hand with its post of the loop's queue. The crate stands on life_rules
//! for names, on sleepers for hands that wait, on loop_queue for posts, and on no table.
#![tactic(auto)]

mod calls;
mod columns;
mod deck;
mod deques;
mod desk;
mod law;
mod lending;
mod queues;
mod relay;
mod stealing;
mod thefts;
mod tokens;

pub use deck::Deck;
pub use desk::Desk;
pub use law::names_count_once;
pub use life_rules::Name;
pub use loop_queue::LoopPost;
pub use relay::Relay;
pub use sleepers::Sleeper;
