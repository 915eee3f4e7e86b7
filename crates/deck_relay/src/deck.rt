//! The deck of one hand.
ghost use Rattle.std.specs.Prelude.{◌≡◌, ◌<◌};
ghost use Rattle.std.specs.Arc.{arc_value};
ghost use Rattle.crossbeam_deque.specs.Handles.{worker_flavor, worker_view};
ghost use Rattle.crossbeam_queue.specs.Passes.{view, IsPassOf};

use crate::deques::Owner;
use crate::queues::Shared;
use crate::thefts::Theft;
use crate::tokens::Tokens;
use crossbeam_queue::Pass;
use life_rules::Name;
use sleepers::Sleeper;
use std::alloc::Global;
use std::sync::Arc;

/// A deck: a deque of its own, what it steals through from each deque of the relay, in their order,
/// and a pass of the queue that the decks share. It is seen as the names that it offered or pushed,
/// and those that it took.
#[derive(Drop)]
pub struct Deck {
    pub(crate) place: u32,
    pub(crate) own: Owner,
    pub(crate) thefts: Vec<Theft>,
    pub(crate) queue: Arc<Shared, Global>,
    pub(crate) pass: Pass<Name, Tokens>,
    pub(crate) sleeper: Sleeper,
    ghost placed: { place ≡ sleeper.place },
    ghost first_in: { worker_flavor own ≡ 0 },
    ghost part: { 0 < (worker_view own).share },
    ghost seated: { IsPassOf (arc_value queue).line pass },
    ghost queued: { 0 < (view pass).share },
}
