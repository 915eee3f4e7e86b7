//! The queue and its rule.
ghost use Rattle.std.specs.Prelude.{◌≡◌};
ghost use Rattle.crossbeam_queue.specs.Passes.{ruled_capacity};

use crate::entry::Entry;
use crossbeam_queue::RuledArrayQueue;
use crossbeam_queue::protocol::{Join, Lesson, Outcome, Protocol, Split};
use std::collections::LinkedList;

/// How many entries the queue has room for.
pub const ROOM: usize = 4096;

/// How many posts a queue may have.
pub const MOST_POSTS: u32 = 32;

/// What a pass knows of the queue. No value of it is made.
pub struct Known {
    /// Its parts of the right to know the whole.
    pub share: u32,
    /// The numbers that it may post under: from the first on, and below the second.
    pub from: u32,
    pub upto: u32,
    pub posted: LinkedList<Entry>,
    pub drained: LinkedList<Entry>,
    /// What it drained was drained through two posts, so its order isn't known.
    pub mixed: bool,
}

/// The rule of the queue: the entries of each post come and go in order.
pub struct InOrder;

impl Protocol<Entry, Known> for InOrder {
    ghost use Rattle.loop_queue.specs.Rule.{Ordered, at_first};

    ghost holds = { Ordered };

    ghost first = { at_first };
}

/// A pass with the next number is made.
pub struct Numbered;

impl Split<Known> for Numbered {
    ghost use Rattle.loop_queue.specs.Rule.{without_next, with_next};

    ghost left = { without_next };

    ghost right = { with_next };
}

/// A pass comes back.
pub struct Gathered;

impl Join<Known> for Gathered {
    ghost use Rattle.loop_queue.specs.Rule.{both, spent};

    ghost both = { both };

    ghost spent = { spent };
}

/// An entry came in, or there was no room for it.
pub struct Posted;

impl Outcome<Entry, Known> for Posted {
    ghost use Rattle.std.specs.Prelude.{◌≡◌};
    ghost use Rattle.loop_queue.specs.Rule.{posting};

    ghost then = { λ v x w. w ≡ posting v x };
}

impl Lesson<Entry, Known> for Posted {
    ghost use Rattle.loop_queue.specs.Rule.{Stood};

    ghost fact = { Stood };
}

/// An entry went out, or there was none.
pub struct Taken;

impl Outcome<Entry, Known> for Taken {
    ghost use Rattle.std.specs.Prelude.{◌≡◌};
    ghost use Rattle.loop_queue.specs.Rule.{draining};

    ghost then = { λ v x w. w ≡ draining v x };
}

impl Lesson<Entry, Known> for Taken {
    ghost use Rattle.loop_queue.specs.Rule.{Stood};

    ghost fact = { Stood };
}

/// All that was posted and drained is known.
pub struct Whole;

impl Lesson<Entry, Known> for Whole {
    ghost use Rattle.loop_queue.specs.Rule.{Tells};

    ghost fact = { Tells };
}

pub(crate) type Line = RuledArrayQueue<Entry, Known, InOrder>;

/// A queue of names, which its posts share.
#[derive(Drop)]
pub struct LoopQueue {
    pub(crate) line: Line,
    ghost sized: { ruled_capacity line ≡ 4096 },
}
