//! A post: what one hand posts and drains through.
ghost use Rattle.std.specs.Arc.{arc_value};
ghost use Rattle.crossbeam_queue.specs.Passes.{view, IsPassOf};
ghost use Rattle.loop_queue.specs.Rule.{IsNumbered};

use crate::entry::Entry;
use crate::queue::{Known, LoopQueue};
use crossbeam_queue::Pass;
use std::alloc::Global;
use std::sync::Arc;

/// A post of a queue. It is seen as its number, the entries that it posted and those that were
/// drained through it, both in order.
#[derive(Drop)]
pub struct LoopPost {
    pub(crate) queue: Arc<LoopQueue, Global>,
    pub(crate) pass: Pass<Entry, Known>,
    pub(crate) number: u32,
    // how many entries it posted
    pub(crate) count: u64,
    ghost seated: { IsPassOf (arc_value queue).line pass },
    ghost numbered: { IsNumbered number count (view pass) },
}
